//! The search by halving.

ghost use Rattle.std.specs.Prelude.{IsSortedByKey};
ghost use Rattle.gx_index.specs.Ids.{id_cmp};
ghost use Rattle.gx_index.specs.Searching.{IsSearchResult};

use gx_rows::Vid;

/// What stands beside `v`, if it is among `entries`, whose identifiers ascend.
pub fn find_under<T: Copy>(entries: &[(Vid, T)], v: Vid) -> Option<T>
    requires { IsSortedByKey (λ e. e.0) id_cmp entries.now }
    ensures { IsSearchResult entries.now v result }
{
    match entries.binary_search_by_key(&v, |e| e.0) {
        Ok(i) => Some(entries[i].1),
        Err(_) => None,
    }
}
