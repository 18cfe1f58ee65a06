//! The law of the table, over every list of calls.
ghost use Rattle.std.specs.Prelude.{List};
ghost use Rattle.web_locks.specs.Calls.{LockCall, IsGoverned, after_calls};
ghost use Rattle.web_locks.specs.Parts.{ArePartsApart};

/// After any calls, no two requests are of one number of a document, an exclusive lock is held
/// alone, the first request that waits does not fit the locks that are held, and none that is held
/// without a steal has overtaken one that waits. And the requests under some keys are those that
/// the calls under these keys make alone.
pub fn lock_laws<K: Ord>()
    ensures governed { (calls : List (LockCall K)) → IsGoverned K.cmp (after_calls K.cmp calls) }
    ensures parts { ArePartsApart K.cmp }
{}
