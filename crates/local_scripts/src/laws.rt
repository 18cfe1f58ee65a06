//! What a caller knows by the truth values of a [`crate::SeenLine`].
ghost use Rattle.local_scripts.specs.Laws.{Changes, Touches};

/// After a line, events of other sites have left the cookies of the site's domain different where
/// they had before, or where the line asks for these cookies and changes them.
pub fn touches()
    ensures touches { Touches }
{}

/// The durable change of a line, if it has one, is the site's where its main event is.
pub fn changes()
    ensures changes { Changes }
{}
