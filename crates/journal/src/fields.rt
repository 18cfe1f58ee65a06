//! Numbers and frames in the bytes of a store.
ghost use Rattle.std.specs.Prelude.{◌≡◌, ◌+◌, ◌<◌, ◌≤◌, List, ℕ, length};
ghost use Rattle.std.specs.Int.{w64, to_le_bytes};
ghost use Rattle.disk_model.specs.Disk.{Holds};
ghost use Rattle.journal.specs.Region.{IsSized};
ghost use Rattle.journal.specs.ReaderAnswers.{IsRead};

// The number of eight bytes there.
pub fn number_at(bytes: &[u8], at: usize) -> u64
    requires { at + 8 ≤ length bytes.now }
    ensures { Holds bytes.now at (to_le_bytes w64 result) }
{
    u64::from_le_bytes([
        bytes[at],
        bytes[at + 1],
        bytes[at + 2],
        bytes[at + 3],
        bytes[at + 4],
        bytes[at + 5],
        bytes[at + 6],
        bytes[at + 7],
    ])
}

/// What stands at an offset of a region.
#[derive(Clone, Copy)]
pub enum Read {
    /// A closed gate.
    End,
    /// No gate, or a frame that passes the end.
    Cut,
    /// A wrong kind.
    Kind,
    /// Changes without a body, or a digest that is cut off.
    Short,
    /// A frame. `list` bytes of the `size` behind its front are the digest of a list, the others
    /// its body.
    Whole {
        snapshot: bool,
        last: u64,
        list: usize,
        size: usize,
    },
}

/// Finds what stands at an offset, with the first three faults of a frame.
pub fn frame_at(bytes: &[u8], at: usize, fresh: bool) -> Read
    ensures { IsRead bytes.now at fresh result }
{
    if at >= bytes.len() {
        return Read::Cut;
    }
    if bytes[at] == 0 {
        return Read::End;
    }
    if bytes.len() - at < 18 {
        return Read::Cut;
    }
    let size = number_at(bytes, at + 10);
    if size > (bytes.len() - at - 18) as u64 {
        return Read::Cut;
    }
    whole_frame(bytes, at, fresh, size as usize)
}

// What a frame is that lies whole within the bytes.
fn whole_frame(bytes: &[u8], at: usize, fresh: bool, size: usize) -> Read
    requires { IsSized bytes.now at size }
    ensures { IsRead bytes.now at fresh result }
{
    let last = number_at(bytes, at + 2);
    let kind = bytes[at + 1];
    if kind == 1 {
        if size == 0 {
            return Read::Short;
        }
        return Read::Whole {
            snapshot: false,
            last,
            list: 0,
            size,
        };
    }
    if kind == 2 && fresh {
        return Read::Whole {
            snapshot: true,
            last,
            list: 0,
            size,
        };
    }
    if kind == 3 && fresh && bytes[8] != 1 {
        if size < 32 {
            return Read::Short;
        }
        return Read::Whole {
            snapshot: true,
            last,
            list: 32,
            size,
        };
    }
    Read::Kind
}
