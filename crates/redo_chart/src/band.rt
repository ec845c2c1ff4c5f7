//! Where the groups of bars are in the chart.
//!
//! Where a group begins depends on the number of lanes above it, and the height of the chart on all three groups. All groups are
//! laid out before anything is written. The maximum numbers of lanes bound the height.
ghost use Rattle.std.specs.Prelude.{◌≡◌, ◌<◌, ◌≤◌, ◌^◌};
ghost use Rattle.redo_chart.specs.Bands as spec;

use redo_html::GroupKind;

// The height of a lane of callers or of marks.
const LANE_HEIGHT: u64 = 14;

// Between two groups.
const GAP: u64 = 6;

/// Where the lanes of a group of bars are. Lengths are in pixels.
#[derive(Clone, Copy)]
pub struct Band {
    pub kind: GroupKind,
    /// The y coordinate at which the first lane begins.
    pub top: u64,
    pub lane_height: u64,
}

impl Band {
    /// Returns the band of the recipes that ran others.
    pub fn callers() -> Band
        ensures { result ≡ spec.callers_band }
    {
        Band {
            kind: GroupKind::Callers,
            top: 20,
            lane_height: LANE_HEIGHT,
        }
    }

    /// Returns the band of the recipes, which follows the callers' band.
    pub fn recipes(caller_lanes: usize, lanes: usize) -> Band
        requires { caller_lanes ≤ spec.max_caller_lanes }
        ensures { result ≡ spec.recipes_band caller_lanes lanes }
    {
        Band {
            kind: GroupKind::Recipes,
            top: Band::callers().below(caller_lanes),
            lane_height: recipe_lane_height(lanes),
        }
    }

    /// Returns the band of the marks, which follows the recipes' band.
    pub fn marks(caller_lanes: usize, recipe_lanes: usize) -> Band
        requires callers { caller_lanes ≤ spec.max_caller_lanes }
        requires recipes { recipe_lanes ≤ spec.max_recipe_lanes }
        ensures { result ≡ spec.marks_band caller_lanes recipe_lanes }
    {
        Band {
            kind: GroupKind::Untimed,
            top: Band::recipes(caller_lanes, recipe_lanes).below(recipe_lanes),
            lane_height: LANE_HEIGHT,
        }
    }

    /// Returns the y coordinate below this band, if it has this number of lanes.
    pub fn below(&self, lanes: usize) -> u64
        requires { spec.below self.now lanes < 2 ^ 64 }
        ensures { result ≡ spec.below self.now lanes }
    {
        GAP + self.top + self.lane_height * lanes as u64
    }
}

fn recipe_lane_height(lanes: usize) -> u64
    ensures { result ≡ spec.recipe_lane_height lanes }
{
    if lanes <= 16 {
        18
    } else if lanes <= 40 {
        12
    } else {
        8
    }
}
