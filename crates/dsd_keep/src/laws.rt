//! The laws of the words `bindings`.
ghost use Rattle.dsd_keep.specs.Folds.{CommandsFold, KeysAreNotShown};

/// After a list of words, each of which left what [`bindings_words`](crate::bindings_words) says,
/// what is kept is what their commands leave one after another.
pub fn commands_fold()
    ensures { CommandsFold }
{}

/// What `list` writes of a record doesn't depend on its key.
pub fn keys_are_not_shown()
    ensures { KeysAreNotShown }
{}
