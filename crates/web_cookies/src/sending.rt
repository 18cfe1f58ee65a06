//! What goes out.
ghost use Rattle.std.specs.Prelude.{◌≡◌, ◌≤◌, ◌&&◌, IfOk, Some, None, length, ◌==◌, option_map, string_bytes, if◌then◌else◌};
ghost use Rattle.cookie_jar.specs.Sending.{joined};
ghost use Rattle.partition_limits.specs.declared.tally.CellKind.TheVariants as kind;
ghost use Rattle.agent_model.specs.CookieStore as spec;
ghost use Rattle.web_cookies.specs.CellsOfUse.{both_of};
ghost use Rattle.web_cookies.specs.Uses.{plain_use};

use crate::cookie_use::{CookieUse, access_of};
use crate::line_input::LineInput;
use agent_base::NoMemory;
use cookie_jar::{Jar, header};

/// The places of the cookies that go out of both cells, and their text, which is empty where none
/// goes out.
#[derive(Debug, Drop)]
pub struct Sending {
    pub own_places: Vec<usize>,
    pub partition_places: Vec<usize>,
    pub text: String,
}

/// What goes out of both cells of a use.
pub fn chosen(
    input: &LineInput<'_>,
    how: &CookieUse<'_>,
    own: &Jar,
    partition: &Jar,
) -> Result<Sending, NoMemory>
    requires own { own.now.kind ≡ kind.Own }
    requires partition { partition.now.kind ≡ kind.Partition }
    ensures own { IfOk result (λ s. s.own_places.items
        ≡ spec.own_places input.now.clock (plain_use how.now) (both_of own.now partition.now)) }
    ensures partition { IfOk result (λ s. s.partition_places.items
        ≡ spec.partition_places input.now.clock (plain_use how.now)
        (both_of own.now partition.now)) }
    ensures text { IfOk result (λ s. string_bytes s.text
        ≡ joined (spec.sent input.now.clock (plain_use how.now) (both_of own.now partition.now))) }
{
    let access = access_of(how);
    let moment = input.clock.signed();
    let own_places = own.pick(input.alloc, &access, moment)?;
    let partition_places = partition.pick(input.alloc, &access, moment)?;
    let text = header(input.alloc, own, &own_places, partition, &partition_places)?;
    Ok(Sending {
        own_places,
        partition_places,
        text,
    })
}

/// The value of a Cookie header, where there is one: without a cookie there is none.
pub fn header_value(
    own_places: &[usize],
    partition_places: &[usize],
    text: String,
) -> Option<String>
    ensures value { option_map string_bytes result
        ≡ (if (length own_places.now == 0) && (length partition_places.now == 0) then None
        else Some (string_bytes text)) }
{
    if own_places.is_empty() && partition_places.is_empty() {
        None
    } else {
        Some(text)
    }
}
