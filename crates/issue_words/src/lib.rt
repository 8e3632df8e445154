// What can be wrong with a building's place, and how a word says it.
#![tactic(auto)]

ghost use Rattle.std.specs.Prelude.{◌≡◌, ◌<◌};
ghost use Rattle.model.specs.Placement.{issue_word};
ghost use Rattle.model.specs.Refusal.{caps};

// An issue's word holds building (5 bits), kind (2), zero (12), index (13): one building is 2^27, one kind 2^25.
const BUILDING: u32 = 1 << 27;

const KIND: u32 = 1 << 25;

// In document 01's order.
#[derive(Clone, Copy, Debug, PartialEq, Eq)]
pub enum PlacementIssue {
    OutOfMap,
    UnbuildableTerrain,
    OverlapsObstacle { index: usize },
    OverlapsBuilding { index: usize },
}

impl PlacementIssue {
    ghost use Rattle.issue_words.specs.Issues.{issue_of, index};

    // The issue of a building as a word. The index is 0 where the kind has none.
    pub fn word(self, building: usize) -> u32
        requires building_small { building < caps.buildings }
        requires index_small { index (issue_of self) < caps.obstacles }
        ensures { result ≡ issue_word building (issue_of self) }
    {
        let (kind, index) = match self {
            PlacementIssue::OutOfMap => (0, 0),
            PlacementIssue::UnbuildableTerrain => (1, 0),
            PlacementIssue::OverlapsObstacle { index } => (2, index),
            PlacementIssue::OverlapsBuilding { index } => (3, index),
        };
        building as u32 * BUILDING + kind * KIND + index as u32
    }
}
