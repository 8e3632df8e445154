// When a building is refused: 14 to 16, per building by index.
#![tactic(auto)]

ghost use Rattle.std.specs.Prelude.{◌≡◌, [], ◌∷◌, ◌≤◌};
ghost use Rattle.model.specs.Ground.{built};
ghost use Rattle.model.specs.Refusal.{given, first, building_lines};

use model::{Plan, WallBuilding, WallError};

const MAX_FOOTPRINT_TILES: u32 = 256;

// 14 to 16, of the building at an index.
fn validate_building(index: usize, b: WallBuilding) -> Result<(), WallError>
    ensures { given result ≡ first (building_lines index (b ∷ [])) }
{
    let width_tiles = b.footprint.width_tiles;
    let height_tiles = b.footprint.height_tiles;
    if ((width_tiles == 0) | (width_tiles > MAX_FOOTPRINT_TILES))
        | ((height_tiles == 0) | (height_tiles > MAX_FOOTPRINT_TILES))
    {
        return Err(WallError::InvalidFootprint {
            index,
            width_tiles,
            height_tiles,
        });
    }
    if query_way::is_wide(b.collision) {
        return Err(WallError::CollisionExtentTooLarge { index });
    }
    let Some(_) = boxes::building_geometry(b) else {
        return Err(WallError::CoordinateOverflow { index });
    };
    Ok(())
}

// 14 to 16, by index.
pub fn validate_buildings(plan: Plan) -> Result<(), WallError>
    requires { plan.count ≤ 32 }
    ensures { given result ≡ first (building_lines 0 (built plan)) }
{
    for index in 0..plan.count {
        let told = validate_building(index, plan.buildings[index]);
        let Ok(()) = told else {
            return told;
        };
    }
    Ok(())
}
