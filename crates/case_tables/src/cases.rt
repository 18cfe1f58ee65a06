ghost use Rattle.std.specs.Prelude.{◌≡◌, ◌↔◌, find, bytes_eq, option_map, IsTrue};
ghost use Rattle.std.specs.List.{list_any};
ghost use Rattle.case_tables.specs.Rows.{first_value, same_in_any_case, rows_of, IsDistinct};

/// A table of named cases: rows of a name and a value, looked up by their names.
///
/// The table borrows its rows, which are often a constant. Each call goes over the rows in
/// order and takes no memory.
#[derive(Debug, Clone, Copy)]
pub struct Cases<'a, V: Copy> {
    pub rows: &'a [(&'static str, V)],
}

impl<V: Copy> Cases<'_, V> {
    /// The value of the first row of this name, and `None` where no row has it.
    pub fn find(&self, name: &str) -> Option<V>
        ensures value { result ≡ first_value (λ other. bytes_eq other name.now) (rows_of self.now) }
    {
        first_named(self.rows, name)
    }

    /// The same where ASCII letters count alike in either case.
    ///
    /// The name comes as bytes, so that a caller may cut it anywhere in a text.
    pub fn find_in_any_case(&self, name: &[u8]) -> Option<V>
        ensures value { result ≡ first_value
            (λ other. same_in_any_case other name.now) (rows_of self.now) }
    {
        first_named_in_any_case(self.rows, name)
    }

    /// Whether no two rows have one name. The time is quadratic in the number of rows.
    pub fn distinct(&self) -> bool
        ensures test { IsTrue result ↔ IsDistinct (rows_of self.now) }
    {
        for (place, row) in self.rows.iter().enumerate() {
            if is_named(&self.rows[place + 1..], row.0) {
                return false;
            }
        }
        true
    }
}

fn first_named<V: Copy>(rows: &[(&'static str, V)], name: &str) -> Option<V>
    ensures { result
        ≡ option_map (λ row. row.1) (find (λ row. bytes_eq row.0.now name.now) rows.now) }
{
    rows.iter().find(|row| row.0 == name).map(|row| row.1)
}

fn first_named_in_any_case<V: Copy>(rows: &[(&'static str, V)], name: &[u8]) -> Option<V>
    ensures { result ≡ option_map (λ row. row.1)
        (find (λ row. same_in_any_case row.0.now name.now) rows.now) }
{
    rows.iter()
        .find(|row| is_same(row.0, name))
        .map(|row| row.1)
}

fn is_same(a: &str, b: &[u8]) -> bool
    ensures { result ≡ same_in_any_case a.now b.now }
{
    a.as_bytes().eq_ignore_ascii_case(b)
}

fn is_named<V: Copy>(rows: &[(&'static str, V)], name: &str) -> bool
    ensures { result ≡ list_any (λ row. bytes_eq row.0.now name.now) rows.now }
{
    rows.iter().any(|row| row.0 == name)
}
