// What each entry point tells a C host: 0 for a result, else the refusal's number, and the place's number, 0 for none.
ghost use Rattle.std.specs.Prelude.{◌≡◌};
ghost use Rattle.task.specs.Answers.{place_number, reason_number};

use task::Refusal;

// A result has no place.
pub(crate) fn result(place: &mut u64) -> u32
    ensures { (result ≡ 0) × (place.new ≡ 0) }
{
    *place = 0;
    0
}

// A refusal has its number, and its place goes where the host lent a number for it.
pub(crate) fn refusal(refused: Refusal, place: &mut u64) -> u32
    ensures { (result ≡ reason_number refused.reason) × (place.new ≡ place_number refused.place) }
{
    *place = refused.place.number();
    refused.reason.number()
}
