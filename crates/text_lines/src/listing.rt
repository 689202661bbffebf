//! Lists of keys and of pairs as text, each behind a space.
//!
//! Tested in `test_serve`.

ghost use Rattle.std.specs.Prelude.{◌≡◌, ℕ, ◌+◌, ◌≤◌, ◌++◌, length, OnOk, OnErr, true};
ghost use Rattle.std.specs.List.{flat_map};
ghost use Rattle.spec_text.specs.Value.{key_text, pair_text};
ghost use Rattle.text_lines.specs.Watched.{SendsTo, SendsPart};

use crate::pending::Pending;
use crate::watched::{Failed, Watched};
use std::io::Write;

/// Adds pairs, and writes what is kept whenever there is no room.
pub fn put_pairs<W: Write>(
    pending: &mut Pending,
    output: &mut Watched<W>,
    pairs: &[(u64, u64)],
) -> Result<(), Failed>
    requires { length pending.old + 16 ≤ 8192 }
    ensures ok { OnOk result (SendsTo W.contents output.old output.new
        (pending.old ++ flat_map pair_text pairs.now) pending.new) }
    ensures room { OnOk result (length pending.new + 16 ≤ 8192) }
    ensures err { OnErr result (SendsPart W.contents output.old output.new
        (pending.old ++ flat_map pair_text pairs.now)) }
    ensures kept { OnOk result (output.new.failed ≡ output.old.failed) }
    ensures failed { OnErr result (output.new.failed ≡ true) }
{
    for pair in pairs {
        pending.make_room(output)?;
        add_pair(pending, *pair);
    }
    Ok(())
}

/// Adds keys, and writes what is kept whenever there is no room.
pub fn put_keys<W: Write>(
    pending: &mut Pending,
    output: &mut Watched<W>,
    keys: &[u64],
) -> Result<(), Failed>
    requires { length pending.old + 16 ≤ 8192 }
    ensures ok { OnOk result (SendsTo W.contents output.old output.new
        (pending.old ++ flat_map key_text keys.now) pending.new) }
    ensures room { OnOk result (length pending.new + 16 ≤ 8192) }
    ensures err { OnErr result (SendsPart W.contents output.old output.new
        (pending.old ++ flat_map key_text keys.now)) }
    ensures kept { OnOk result (output.new.failed ≡ output.old.failed) }
    ensures failed { OnErr result (output.new.failed ≡ true) }
{
    for key in keys {
        pending.make_room(output)?;
        add_key(pending, *key);
    }
    Ok(())
}

fn add_pair(pending: &mut Pending, pair: (u64, u64))
    requires { length pending.old + 64 ≤ 8192 }
    ensures text { pending.new ≡ pending.old ++ pair_text pair }
    ensures short { length pending.new ≤ length pending.old + 48 }
{
    let (key, value) = pair;
    add_key(pending, key);
    pending.add(b"=");
    pending.add_number(value);
}

fn add_key(pending: &mut Pending, key: u64)
    requires { length pending.old + 24 ≤ 8192 }
    ensures text { pending.new ≡ pending.old ++ key_text key }
    ensures short { length pending.new ≤ length pending.old + 21 }
{
    pending.add(b" ");
    pending.add_number(key);
}
