// What a verdict and a sheet are asked of.
use crate::nodes::{held_not_void, joined, mixed, parties, six_clubs, six_pads, three_pairs};
use crate::scene::Scene;
use crate::trouble::Trouble;
use plan::{Line, Plan};

#[derive(Clone, Copy)]
pub(crate) enum Case {
    // One of 45 clubs that have one pad and slot.
    Rival,
    // Whether any of the six clubs has the pad at the next slot: one of them has it in each reading.
    AnyRival,
    // A pad that is held and not void, among rows of four relations.
    Held,
    // Six leaves with unions and differences over the same rows.
    SixLeaves,
    // A held pad and a party there, of the same rows.
    Joined,
    // Whether any of six parties stands, of which no two of a pair give way together.
    Two,
    // Whether one of each pair stands: 37 ways can make the line no answer, and none of them can be.
    Pairs,
    // Whether any of six parties stands, of which the first three do not give way all together.
    Three,
    // The same, but the three come after another.
    Behind,
}

impl Case {
    pub(crate) fn name(self) -> &'static str {
        match self {
            Case::Rival => "one of 45 rivals",
            Case::AnyRival => "any of six rivals, with 45 elsewhere",
            Case::Held => "a difference in a crowd",
            Case::SixLeaves => "six leaves in a crowd",
            Case::Joined => "a join in a crowd",
            Case::Two => "any of six, two of which cannot be out",
            Case::Pairs => "three pairs that cannot be out",
            Case::Three => "any of six, three of which cannot be out",
            Case::Behind => "any of six, three of which cannot be out, behind one",
        }
    }

    pub(crate) fn scene(self) -> Scene {
        match self {
            Case::Rival => Scene::Rivals,
            Case::AnyRival => Scene::MoreRivals,
            Case::Held | Case::SixLeaves | Case::Joined => Scene::Crowd,
            Case::Two | Case::Pairs => Scene::Twos,
            Case::Three => Scene::Three,
            Case::Behind => Scene::Behind,
        }
    }

    pub(crate) fn plan(self) -> Result<Plan, Trouble> {
        match self {
            Case::Rival => Plan::of(&parties()),
            Case::AnyRival => Plan::of(&six_clubs()),
            Case::Held => Plan::of(&held_not_void()),
            Case::SixLeaves => Plan::of(&mixed()),
            Case::Joined => Plan::of(&joined()),
            Case::Two | Case::Three | Case::Behind => Plan::of(&six_pads()),
            Case::Pairs => Plan::of(&three_pairs()),
        }
        .map_err(|_| Trouble::NoPlan)
    }

    // The line that the verdict is of.
    pub(crate) fn line(self) -> Line {
        let columns = match self {
            Case::Rival => [1, 0, 7, 0, 0, 0, 0, 0],
            Case::AnyRival => [1, 1, 0, 0, 0, 0, 0, 0],
            Case::Held | Case::SixLeaves => [2, 0, 0, 0, 0, 0, 0, 0],
            Case::Joined => [2, 0, 2, 0, 4, 0, 0, 0],
            Case::Two | Case::Pairs | Case::Three | Case::Behind => [0; 8],
        };
        Line { columns }
    }
}
