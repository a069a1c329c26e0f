// Records at a log's end.
ghost use Rattle.std.specs.Prelude.{◌≤◌, ◌<◌, length};
ghost use Rattle.effects.specs.Appended.{Appended};

// Appends a record, or says that there is no room and leaves the log as it is.
pub fn append(log: &mut [u8], end: usize, kind: u8, word: u64, data: &[u8]) -> Option<usize>
    requires { (end ≤ length log.old) × (length «data».now < 4294967296) }
    ensures { Appended (record { kind = kind; word = word; bytes = «data».now }) end log.old log.new result }
{
    let n = data.len();
    if log.len() - end < n + 13 {
        return None;
    }
    let body = end + n;
    words::bytes::copy_in(log, end, data);
    words::bytes::write(log, body, 1, kind as u64);
    words::bytes::write(log, body + 1, 8, word);
    words::bytes::write(log, body + 9, 4, n as u64);
    Some(body + 13)
}
