// Why an act is refused, with its number.
ghost use Rattle.std.specs.Prelude.{◌≡◌};
ghost use Rattle.terms.specs.Numbers.{number_of};

#[derive(Clone, Copy, Debug, PartialEq, Eq)]
pub enum Refusal {
    // The number of controllers is 0 or over 15.
    Count = 1,
    // Fewer cells than 1,024 for each controller.
    Memory = 2,
    // The channel has fewer places than there are other controllers.
    Places = 3,
    // The name is 0 or over the number of controllers.
    Name = 4,
    // The controller is down.
    Down = 5,
    // The controller has called before.
    Called = 6,
    // A step of a controller that is not ready.
    NotReady = 7,
    // Too few places are free for the messages that the act would send.
    NoPlace = 8,
    // Nothing waits in the channel.
    Nothing = 9,
    // At an opening, something waits in the channel.
    Leftover = 10,
    // The message is not well formed, or is for another controller.
    Message = 11,
    // There is no answer to collect yet.
    NoAnswer = 12,
    // The yes was collected before.
    Taken = 13,
    // The permit is for another vehicle, or its stage is not the park's.
    Permit = 14,
    // The record of the script is no record.
    Line = 15,
}

impl From<Refusal> for u8 {
    ghost from_gives = { λ refusal number. number ≡ number_of refusal };

    fn from(refusal: Refusal) -> u8 {
        refusal as u8
    }
}
