// Values in the body of a record, numbers with the highest byte first.
ghost use Rattle.std.specs.Prelude.{◌≡◌, ◌≤◌, ◌==◌, length, true, false, if◌then◌else◌};
ghost use Rattle.refusals.specs.declared.Refusal.TheVariants.{UnknownByte};
ghost use Rattle.replay.specs.Fields.{forecasts_of};

use arrayvec::ArrayVec;
use refusals::Refusal;

// The most forecasts of a pass.
const MOST: usize = 8;

// The forecasts of a body, from four bytes each.
#[tactic(auto, using(crate::proofs::Fours::forecasts_so_far))]
pub(super) fn forecasts(body: &[u8]) -> ArrayVec<u32, MOST>
    requires { length body.now ≤ 32 }
    ensures { result.items ≡ forecasts_of body.now }
{
    let (fours, _) = body.as_chunks();
    let mut list = ArrayVec::new();
    for four in fours {
        list.push(u32::from_be_bytes(*four));
    }
    list
}

// Whether an outcome is up: 1 is, 0 is down. No `TryFrom`, since `bool` and `u8` are both the library's.
pub(super) fn is_up(outcome: u8) -> Result<bool, Refusal>
    ensures { result ≡ (if outcome == 1 then Ok true else (if outcome == 0 then Ok false else Err UnknownByte)) }
{
    match outcome {
        1 => Ok(true),
        0 => Ok(false),
        _ => Err(Refusal::UnknownByte),
    }
}
