//! The checks of a key, a label and an allowance, and the load of a session.
ghost use Rattle.std.specs.Prelude.{◌≡◌, length, None, ◌≢◌};
ghost use Rattle.stream.specs.Ciphers.{load_refusal, session_iv};
ghost use Rattle.stream.specs.Refusals.{Checked};
ghost use Rattle.link.specs.Sessions.{pair_refusal};

use stream::engine::Engine;
use stream::refusal::Refusal;
use stream::session::session_iv;

// Whether the IVs of a label are forbidden, where key and label have the cipher's lengths.
fn forbidden<E: Engine>(key: &[u8], label: &[u8]) -> bool
    requires key_length { length key.now ≡ E.cipher.figures.key }
    requires label_length { length label.now ≡ E.cipher.figures.label }
    ensures { result ≡ E.cipher.forbids (session_iv label.now 0) }
{
    // an array with the length of what was written into it: the link allocates nothing
    let mut iv = [0; 16];
    match session_iv(label, 0, &mut iv) {
        Ok(n) => E::check(key, &iv[0..n]).is_err(),
        Err(_) => true,
    }
}

// Key, label and allowance stay three parameters: they are those of the link's calls, by the rules.
/// The checks of a key, a label and an allowance: refused with the first that applies of 1, 2, 3 and 4.
pub fn check_pairing<E: Engine>(key: &[u8], label: &[u8], allowance: u32) -> Result<(), Refusal>
    ensures { Checked (pair_refusal E.cipher key.now label.now allowance) result }
{
    let figures = E::figures();
    if key.len() != figures.key {
        Err(Refusal::KeyLength)
    } else if label.len() != figures.label {
        Err(Refusal::LabelLength)
    } else if forbidden::<E>(key, label) {
        Err(Refusal::ForbiddenBit)
    } else if allowance == 0 || figures.ceiling < allowance {
        Err(Refusal::BadAllowance)
    } else {
        Ok(())
    }
}

/// Sets an engine to the start of a session, given by its key, label and number.
/// Where a load of that key and the session's IV is refused, the engine is left as it was.
pub fn load_session<E: Engine>(engine: &mut E, key: &[u8], label: &[u8], session: u32)
    ensures starts { load_refusal E.cipher key.now (session_iv label.now session) ≡ None
        → E.state engine.new ≡ E.cipher.start key.now (session_iv label.now session) }
    ensures keeps { (load_refusal E.cipher key.now (session_iv label.now session) ≢ None)
        → engine.new ≡ engine.old }
{
    // an array with the length of what was written into it: the link allocates nothing
    let mut iv = [0; 16];
    if let Ok(n) = session_iv(label, session, &mut iv) {
        let _ = engine.load(key, &iv[0..n]);
    }
}
