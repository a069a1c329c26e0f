// The stack, a lent slice of words and a depth: the words below the depth are stacked.
ghost use Rattle.std.specs.Prelude.{◌≡◌, ◌≤◌, length, slice_set};
ghost use Rattle.state.specs.Stack.{push_of, pop_of};

// The depth stands beside the words, for it is the run's (`Run`, machine), and the words are lent.
pub fn push(stack: &mut [u64], depth: usize, v: u64) -> Option<usize>
    ensures answer { result ≡ push_of (length stack.old) depth }
    ensures contents { stack.new ≡ slice_set stack.old depth v }
{
    if stack.len() <= depth {
        return None;
    }
    stack[depth] = v;
    Some(depth + 1)
}

pub fn pop(stack: &[u64], depth: usize) -> Option<u64>
    requires { depth ≤ length stack.now }
    ensures { result ≡ pop_of stack.now depth }
{
    if depth == 0 {
        return None;
    }
    let top = depth - 1;
    Some(stack[top])
}
