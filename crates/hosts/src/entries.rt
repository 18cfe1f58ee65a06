//! Values that stand under paths, one behind another.
ghost use Rattle.std.specs.Prelude.{◌≡◌, ◌<◌, IfSome, MatchOption, None, Some, length, remove};
ghost use Rattle.hosts.specs.Entries.{found_at, path_from, value_from, without_first};

/// The place of the first entry of a path.
pub fn place_of<T>(entries: &[(String, T)], path: &str) -> Option<usize>
    ensures found { MatchOption result (found_at entries.now path.now ≡ None)
        (λ place. (place < length entries.now)
        × (value_from place entries.now ≡ found_at entries.now path.now)) }
    ensures named { IfSome result
        (λ place. path_from place entries.now ≡ Some path.now) }
    ensures first { IfSome result
        (λ place. remove entries.now place ≡ without_first entries.now path.now) }
{
    for place in 0..entries.len() {
        if path == entries[place].0.as_str() {
            return Some(place);
        }
    }
    None
}
