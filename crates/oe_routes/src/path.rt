// The parameters of a path.
ghost use Rattle.std.specs.Prelude.{◌≡◌};
ghost use Rattle.oe_routes.specs.Paths as spec;

use oe_pages::path_behind;

/// What stands before the first slash.
fn segment(path: &str) -> &str
    ensures { result.now ≡ spec.segment path.now }
{
    match path.split_once('/') {
        Some((segment, _)) => segment,
        None => path,
    }
}

/// The second segment of a path. Takes no memory.
pub fn id_in(path: &str) -> &str
    ensures { result.now ≡ spec.id_in path.now }
{
    segment(path_behind(path_behind(path)))
}

/// The fourth segment of a path. Takes no memory.
pub fn name_in(path: &str) -> &str
    ensures { result.now ≡ spec.name_in path.now }
{
    segment(path_behind(path_behind(path_behind(path_behind(path)))))
}
