//! What a channel hears over a list of calls.
ghost use Rattle.broadcast_channel.specs.Calls.{HearsAll, HearsNoMore};

/// What a channel hears from its opening to its close: the texts posted on other channels of its
/// storage key and channel name, in order, but for those that were lost.
///
/// It does nothing. From a call of it on, the proof knows its clauses.
pub fn channel_laws<O: Ord, K: Ord>()
    ensures heard { HearsAll O.cmp K.cmp }
    ensures closed { HearsNoMore O.cmp K.cmp }
{}
