//! Callers and notes can be sent to other threads, and the threads share the structure.

use crate::{Caller, Combined, Note, Shared};

fn can_be_sent<T: Send>() {}

fn can_be_shared<T: Sync>() {}

/// `Caller` and `Note` are `Send`, and `Shared` is `Sync`, where the structure, its operations and replies are `Send`.
pub fn callers_go_to_threads<T: Combined + Send>()
where
    T::Op: Send,
    T::Reply: Send,
{
    can_be_sent::<Caller<T>>();
    can_be_sent::<Note<T>>();
    can_be_shared::<Shared<T>>();
}
