//! Covering by each cipher.
ghost use Rattle.std.specs.Prelude.{◌≡◌};
ghost use Rattle.stream.specs.Ciphers.{load_refusal};
ghost use Rattle.speed.specs.Answers.{told, Covers};
ghost use Rattle.speed.specs.Numbered.{cipher_of};

use crate::answer::told;
use grain128::engines::{Grain128, Grain128a, Grain128ax32, Grain128x32};
use sprout::engine::Sprout;
use stream::draws::cover;
use stream::engine::Engine;

// Loads an engine and covers octets in place. Answers 0, or the number of the load's refusal; the octets are left as they were then.
fn covered<E: Engine + Drop>(mut engine: E, key: &[u8], iv: &[u8], octets: &mut [u8]) -> u32
    ensures answer { result ≡ told (load_refusal E.Engine.cipher key.now iv.now) }
    ensures octets { Covers E.Engine.cipher key.now iv.now octets.old octets.new result }
{
    let loaded = engine.load(key, iv);
    if loaded.is_ok() {
        cover(&mut engine, octets);
    }
    told(loaded)
}

// Numbers stand for the ciphers and for the refusals, since a C program calls it.
/// Covers octets in place with the keystream of a key and an IV, by the engine of this number: 0 Grain-128 and 1 Grain-128a at
/// stride 32, 2 and 3 the same at stride 1, any other Sprout.
/// Answers 0, or 1, 2 or 3 where the load is refused; the octets are left as they were then.
#[unsafe(no_mangle)]
pub extern "C" fn speed_cover(cipher: u32, key: &[u8], iv: &[u8], octets: &mut [u8]) -> u32
    ensures answer { result ≡ told (load_refusal (cipher_of cipher) key.now iv.now) }
    ensures octets { Covers (cipher_of cipher) key.now iv.now octets.old octets.new result }
{
    match cipher {
        0 => covered(Grain128x32::new(), key, iv, octets),
        1 => covered(Grain128ax32::new(), key, iv, octets),
        2 => covered(Grain128::new(), key, iv, octets),
        3 => covered(Grain128a::new(), key, iv, octets),
        _ => covered(Sprout::new(), key, iv, octets),
    }
}
