//! What a C program is told.
ghost use Rattle.std.specs.Prelude.{MatchResult, ◌≡◌};
ghost use Rattle.stream.specs.Refusals.{number};

use stream::refusal::Refusal;

// 0 where a call was accepted, and else the number of its refusal: a C program is handed a number.
pub(crate) fn told(answer: Result<(), Refusal>) -> u32
    ensures { MatchResult answer (λ _. result ≡ 0) (λ e. result ≡ number e) }
{
    match answer {
        Ok(()) => 0,
        Err(refusal) => refusal.number(),
    }
}
