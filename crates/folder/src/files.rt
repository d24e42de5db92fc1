// The files of a set by their standard names.
ghost use Rattle.std.specs.Prelude.{◌≡◌, ◌<◌};
ghost use Rattle.fault.specs.Outcome.{file_count};
ghost use Rattle.folder.specs.Line.{name_of};

// A file's name by its place in the set, counted from 0.
// Shut out: a name misspelt; the name of another file.
#[tactic(auto, unfolding(crate::specs::Line::names, crate::specs::Line::name_of))]
pub fn name_of(i: usize) -> &'static str
    requires { i < file_count }
    ensures { result.now ≡ name_of i }
{
    match i {
        0 => "vehicle_types.json",
        1 => "station_information.json",
        2 => "station_status.json",
        3 => "free_bike_status.json",
        4 => "system_pricing_plans.json",
        5 => "geofencing_zones.json",
        6 => "system_information.json",
        _ => "system_regions.json",
    }
}
