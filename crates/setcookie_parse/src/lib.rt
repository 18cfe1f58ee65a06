//! Set-Cookie texts and cookie-dates, read as RFC 6265bis says.
//!
//! Each text is kept as a cookie or dropped with its cause, exactly as the definitions in
//! `specs/SetCookie.antt` and `specs/CookieDate.antt` say. No call takes memory.
#![tactic(auto)]

mod attribute;
mod cookie;
mod cut;
mod date;
mod digits;
mod parts;
mod seen;
mod text;
mod token;
mod trim;

pub use cookie::{CookieText, DropCause, Parsed, SameSite};
pub use date::cookie_date;
pub use text::parse;
