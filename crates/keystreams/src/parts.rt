//! A part of a keystream, from any octet on.
ghost use Rattle.std.specs.Prelude.{◌≡◌, length, Some, None, MatchResult};
ghost use Rattle.stream.specs.Ciphers.{cover as covering};
ghost use Rattle.stream.specs.Refusals.{Checked, number};
ghost use Rattle.keystreams.specs.Uses.{part_refusal, part_start, part_end, part_octets};

use stream::draws::{cover, forward};
use stream::engine::Engine;
use stream::refusal::Refusal;

/// Where a part of a keystream begins: at octet `first` of the keystream of a key and an IV.
#[derive(Clone, Copy)]
pub struct Start<'a> {
    /// The key.
    pub key: &'a [u8],
    /// The IV.
    pub iv: &'a [u8],
    /// The first octet of the part, counted from 0.
    pub first: u32,
}

impl Start<'_> {
    // Whether so many keystream octets from here on may be used, or the first refusal that applies:
    // 1, 2 or 3 as for a load, else 11 where they end above the ceiling.
    #[tactic(auto, unfolding(crate::specs::Uses::use_refusal))]
    pub(crate) fn check<E: Engine>(&self, size: usize) -> Result<(), Refusal>
        ensures { Checked (part_refusal E.cipher self.now size) result }
    {
        E::check(self.key, self.iv)?;
        let ceiling = E::figures().ceiling;
        if self.first > ceiling || size > (ceiling - self.first) as usize {
            return Err(Refusal::AboveAllowance);
        }
        Ok(())
    }

    // Loads an engine and moves it forward to here, for so many octets. Refused, it leaves the engine as it was.
    #[tactic(auto, unfolding(crate::specs::Uses::use_refusal))]
    fn place<E: Engine>(&self, engine: &mut E, size: usize) -> Result<(), Refusal>
        ensures { MatchResult result
            (λ _. (part_refusal E.cipher self.now size ≡ None)
            × (E.state engine.new ≡ part_start E.cipher self.now))
            (λ e. (part_refusal E.cipher self.now size ≡ Some (number e))
            × (engine.new ≡ engine.old)) }
    {
        self.check::<E>(size)?;
        engine.load(self.key, self.iv)?;
        forward(engine, self.first);
        Ok(())
    }

    /// Covers octets in place with the keystream from here on, and leaves the engine after them.
    /// Covering once more from the same start uncovers them.
    ///
    /// Refused with 1, 2, 3 or 11, the first that applies, it leaves the octets and the engine as they were.
    pub fn cover<E: Engine>(&self, engine: &mut E, octets: &mut [u8]) -> Result<(), Refusal>
        ensures { MatchResult result
            (λ _. (part_refusal E.cipher self.now (length octets.old) ≡ None)
            × (octets.new ≡ covering E.cipher (part_start E.cipher self.now) octets.old)
            × (E.state engine.new ≡ part_end E.cipher self.now (length octets.old)))
            (λ e. (part_refusal E.cipher self.now (length octets.old) ≡ Some (number e))
            × (octets.new ≡ octets.old)
            × (engine.new ≡ engine.old)) }
    {
        self.place(engine, octets.len())?;
        cover(engine, octets);
        Ok(())
    }

    /// Fills a buffer with the keystream from here on, and leaves the engine after it.
    ///
    /// Refused with 1, 2, 3 or 11, the first that applies, it leaves the buffer and the engine as they were.
    pub fn write_keystream<E: Engine>(&self, engine: &mut E, out: &mut [u8]) -> Result<(), Refusal>
        ensures { MatchResult result
            (λ _. (part_refusal E.cipher self.now (length out.old) ≡ None)
            × (out.new ≡ part_octets E.cipher self.now (length out.old))
            × (E.state engine.new ≡ part_end E.cipher self.now (length out.old)))
            (λ e. (part_refusal E.cipher self.now (length out.old) ≡ Some (number e))
            × (out.new ≡ out.old)
            × (engine.new ≡ engine.old)) }
    {
        self.place(engine, out.len())?;
        out.fill(0);
        cover(engine, out);
        Ok(())
    }
}
