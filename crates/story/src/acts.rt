// The acts of the story, with the picks that decide which message comes next.
use promise::act::Act;

// A delivery with a pick from here on leaves its message in the channel, if a place is free.
pub const STAYS: u32 = 0x8000_0000;

pub const ACTS: [Act; 34] = [
    Act::Call(2),
    Act::Call(1),
    Act::Call(3),
    // North's PHASE comes to West, and West's ECHO to North. Both stay, and the first comes again.
    Act::Deliver(STAYS),
    Act::Deliver(STAYS + 4),
    Act::Step(1),
    Act::Deliver(2),
    // The PHASE of West to North, and that of South to West.
    Act::Deliver(0),
    Act::Deliver(5),
    Act::Crash(1),
    // Two of three are enough: North's ECHO still comes to West, and West's to South.
    Act::Deliver(5),
    Act::Step(2),
    Act::Deliver(5),
    Act::Step(3),
    // The ECHO that stayed comes to North again.
    Act::Deliver(0),
    // West and South hear each other in phase 2, and go on to selector 2.
    Act::Deliver(0),
    Act::Deliver(5),
    Act::Deliver(5),
    Act::Deliver(5),
    Act::Step(2),
    Act::Deliver(9),
    Act::Step(3),
    // South has kept West's name: its ECHO comes to West, and stays.
    Act::Deliver(STAYS + 1),
    Act::Step(2),
    Act::Deliver(11),
    Act::Deliver(9),
    Act::Deliver(9),
    Act::Deliver(11),
    Act::Step(3),
    Act::Deliver(11),
    Act::Step(2),
    Act::Deliver(11),
    Act::Deliver(12),
    Act::Step(3),
];
