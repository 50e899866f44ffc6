// How the rounds go.
ghost use Rattle.std.specs.Prelude.{◌≡◌};
ghost use Rattle.rehearse.specs.Course.{round_of, mixed, fate_of};

use round_rules::{Fate, Round};

#[derive(Clone, Copy)]
pub enum Course {
    // Every round good.
    Good,
    // Rounds of every kind in turn.
    Mixed,
}

// The round of a turn, from 0.
#[tactic(auto, unfolding(crate::specs::Course::round_of))]
pub(crate) fn round(course: Course, turn: u32) -> Round
    ensures { result ≡ round_of course turn }
{
    match course {
        Course::Good => Round {
            worked: true,
            fate: Fate::Delivered,
        },
        Course::Mixed => mixed(turn),
    }
}

#[tactic(auto, unfolding(crate::specs::Course::mixed))]
fn mixed(turn: u32) -> Round
    ensures { result ≡ mixed turn }
{
    Round {
        worked: turn % 8 < 4,
        fate: fate(turn % 4),
    }
}

#[tactic(auto, unfolding(crate::specs::Course::fate_of))]
fn fate(place: u32) -> Fate
    ensures { result ≡ fate_of place }
{
    match place {
        0 => Fate::AnswerLost,
        1 => Fate::Twice,
        2 => Fate::RequestLost,
        _ => Fate::Delivered,
    }
}
