/// Reads the fields of one row in the order that is written, then refuses all others, then makes
/// a value of them.
///
/// `read_fields!((source, place); only; { tab: number(1, 9), key: text } => Action::Set(tab, key))`
/// calls `number(source, place, "tab", 1, 9)?` and `text(source, place, "key")?`, then
/// `only(source, place, &["tab", "key"])?`, and is `Action::Set(tab, key)`. The first call that
/// fails ends the function that the macro stands in, with that call's error.
#[macro_export]
macro_rules! read_fields {
    ($source:tt; $only:ident; {
        $($field:ident: $reader:ident $(($($extra:expr),+))?),* $(,)?
    } => $made:expr) => {{
        $(let $field = $crate::call_reader!(
            $reader; $source; (stringify!($field) $($(, $extra)+)?)
        )?;)*
        $crate::call_reader!($only; $source; (&[$(stringify!($field)),*]))?;
        $made
    }};
}

/// Calls a reader with the parts of its source, and then with its own arguments.
#[macro_export]
macro_rules! call_reader {
    ($reader:ident; ($($source:expr),*); ($($argument:expr),*)) => {
        $reader($($source,)* $($argument),*)
    };
}
