//! Pages that tell of codes.
ghost use Rattle.std.specs.Prelude.{◌≡◌, IfSome, is_some, map, true};
ghost use Rattle.std.specs.List.{list_all};
ghost use Rattle.gr_console.specs.Explanations.{IsOn, is_among, begins};

/// The page of this code, in a table of codes with their pages.
pub(crate) fn page_in(mut table: &[(&[u8], &'static str)], code: &[u8]) -> Option<&'static str>
    requires { list_all (λ entry. begins entry.0.now entry.1.now) table.now ≡ true }
    ensures told { is_some result ≡ is_among (map (λ entry. entry.0.now) table.entry.now) code.now }
    ensures page { IfSome result (λ page. IsOn code.now page.now) }
{
    while let [entry, rest @ ..] = table {
        if entry.0 == code {
            return Some(entry.1);
        }
        table = rest;
    }
    None
}
