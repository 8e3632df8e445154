// When a query is refused: 1 to 16, in the table's order. Each stage's answer is opened before the next one runs.
#![tactic(auto)]

ghost use Rattle.std.specs.Prelude.{◌≡◌};
ghost use Rattle.model.specs.Ground.{seen};
ghost use Rattle.model.specs.Refusal.{given, first, query_lines};
ghost use Rattle.query.specs.Stages.{ground_lines, way_lines};

use model::{Ground, WallError, WallQuery};

// 1 to 7.
fn validate_ground(ground: Ground<'_>) -> Result<(), WallError>
    ensures { given result ≡ first (ground_lines (seen ground.entry)) }
{
    let told = query_ground::validate_size(ground.width, ground.height, ground.cells);
    let Ok(()) = told else {
        return told;
    };
    let told = query_ground::validate_cells(ground.cells);
    let Ok(()) = told else {
        return told;
    };
    query_ground::validate_obstacles(ground.words)
}

// 8 to 13.
fn validate_way(width: u32, height: u32, query: WallQuery) -> Result<(), WallError>
    ensures { given result ≡ first (way_lines width height query) }
{
    let told = query_way::validate_mover(query.mover);
    let Ok(()) = told else {
        return told;
    };
    let told = query_way::validate_count(query.plan.count);
    let Ok(()) = told else {
        return told;
    };
    let told = query_way::validate_window(width, height, query.window);
    let Ok(()) = told else {
        return told;
    };
    query_way::validate_ends(query.window, query.start, query.end)
}

// 1 to 16, of any cells, any words and any query.
pub fn validate_query(ground: Ground<'_>, query: WallQuery) -> Result<(), WallError>
    ensures { given result ≡ first (query_lines (seen ground.entry) query) }
{
    let told = validate_ground(ground);
    let Ok(()) = told else {
        return told;
    };
    let told = validate_way(ground.width, ground.height, query);
    let Ok(()) = told else {
        return told;
    };
    query_buildings::validate_buildings(query.plan)
}
