//! The lists of the recursion: the front of a vector, and one element in the place of two. They are
//! few and short, so that moving the rest costs nothing.
ghost use Rattle.std.specs.Prelude.{◌≡◌, ◌+◌, ◌<◌, ◌≤◌, ◌∷◌, [], MatchOption, vec_len};
ghost use Rattle.std.specs.Prelude.{vec_capacity};
ghost use Rattle.prolly_build.specs.Lists.{IsForked};

/// Takes the first element.
pub(crate) fn pop_first<T>(list: &mut Vec<T>) -> Option<T>
    ensures items { MatchOption result ((list.old.items ≡ []) ×
        (list.new.items ≡ [])) (λ first. list.old.items ≡ first ∷ list.new.items) }
    ensures capacity { vec_capacity list.new ≡ vec_capacity list.old }
    ensures len { MatchOption result (vec_len list.new ≡ 0)
        (λ _. vec_len list.old ≡ vec_len list.new + 1) }
{
    if list.is_empty() {
        return None;
    }
    Some(list.remove(0))
}

/// Puts an element first, into room that is there.
pub(crate) fn push_first<T: Drop>(list: &mut Vec<T>, first: T)
    requires { vec_len list.old < vec_capacity list.old }
    ensures items { list.new.items ≡ first ∷ list.old.items }
    ensures capacity { vec_capacity list.old ≤ vec_capacity list.new }
    ensures len { vec_len list.new ≡ vec_len list.old + 1 }
{
    match list.insert(0, first) {
        Ok(()) => {}
        Err(_) => unreachable!(),
    }
}

/// Takes the element at a place, and puts two there, into room that is there.
pub(crate) fn fork_at<T: Drop>(list: &mut Vec<T>, at: usize, left: T, right: T) -> T
    requires place { at < vec_len list.old }
    requires room { vec_len list.old < vec_capacity list.old }
    ensures items { IsForked at list.old.items result list.new.items left right }
    ensures len { vec_len list.new ≡ vec_len list.old + 1 }
    ensures capacity { vec_capacity list.old ≤ vec_capacity list.new }
{
    let Some(first) = pop_first(list) else {
        unreachable!()
    };
    if at == 0 {
        push_first(list, right);
        push_first(list, left);
        return first;
    }
    let one = fork_at(list, at - 1, left, right);
    push_first(list, first);
    one
}

/// Takes the two elements from a place on, and puts one there.
pub(crate) fn join_at<T: Drop>(list: &mut Vec<T>, at: usize, one: T) -> (T, T)
    requires { at + 1 < vec_len list.old }
    ensures items { IsForked at list.new.items one list.old.items result.0 result.1 }
    ensures len { vec_len list.new + 1 ≡ vec_len list.old }
    ensures capacity { vec_capacity list.old ≤ vec_capacity list.new }
{
    let Some(first) = pop_first(list) else {
        unreachable!()
    };
    if at == 0 {
        let Some(second) = pop_first(list) else {
            unreachable!()
        };
        push_first(list, one);
        return (first, second);
    }
    let two = join_at(list, at - 1, one);
    push_first(list, first);
    two
}
