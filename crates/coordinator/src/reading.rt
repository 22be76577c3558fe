// What a command asks for: its operation code, its service action, then its length; and what of it is in force. It is read from the bytes alone, before the state is handed on.
#![tactic(auto, unfolding(paper::specs::Orders::exactly, paper::specs::Orders::read_manage, paper::specs::Orders::read_cancel, paper::specs::Orders::read_out, paper::specs::Orders::read_in, paper::specs::Orders::reading_of, paper::specs::InForce::in_force))]

ghost use Rattle.std.specs.Prelude.{◌≡◌, List, ℕ};
ghost use Rattle.paper.specs.Orders.{exactly, read_manage, read_cancel, read_out, read_in, reading_of, service_action};
ghost use Rattle.coordinator.specs.Orders.{order_of, read_of, force_of, read_request, meant_by, forced};

use paper::answers::Condition;
use paper::state::ID_SIZE;

// The OUT commands. What ENROLL and MANAGE ACL read stands in the parameter bytes.
#[derive(Clone, Copy)]
pub enum OutOrder {
    Manage,
    Disable(u64),
    Enroll,
    Cancel,
    Revoke(u64),
    RevokeAll(u64),
    Assign(u64, u64),
    Release(u64),
    NoAction,
}

// A command, where it is in force. What REPORT ACL reads stands in the CDB.
#[derive(Clone, Copy)]
pub enum Command {
    Report,
    Request(u64),
    Out(OutOrder),
}

// Bits 0 to 4 of byte 1.
pub fn service_action(cdb: &[u8]) -> u8
    ensures { result ≡ service_action cdb.now }
{
    wire::byte(cdb, 1) % 32
}

// "length 0 is GOOD with no action"; otherwise the length is exact.
fn exactly(list: &[u8], n: usize, o: OutOrder) -> Result<OutOrder, Condition>
    ensures { read_of list.now result ≡ exactly n list.now (order_of list.now o) }
{
    match list.len() {
        0 => Ok(OutOrder::NoAction),
        size if size == n => Ok(o),
        _ => Err(Condition::WrongLength),
    }
}

// "MANAGE ACL at least 28"
fn read_manage(list: &[u8]) -> Result<OutOrder, Condition>
    ensures { read_of list.now result ≡ read_manage list.now }
{
    match list.len() {
        0 => Ok(OutOrder::NoAction),
        1..28 => Err(Condition::WrongLength),
        _ => Ok(OutOrder::Manage),
    }
}

// "except for CANCEL where 0 is the only length"
fn read_cancel(list: &[u8]) -> Result<OutOrder, Condition>
    ensures { read_of list.now result ≡ read_cancel list.now }
{
    if list.is_empty() {
        Ok(OutOrder::Cancel)
    } else {
        Err(Condition::InvalidField)
    }
}

// The commands by their service actions; the reserved ones are not supported.
pub fn read_out(action: u8, list: &[u8]) -> Result<OutOrder, Condition>
    ensures { read_of list.now result ≡ read_out action list.now }
{
    match action {
        0x00 => read_manage(list),
        0x01 => exactly(list, 12, OutOrder::Disable(wire::be64(list, 4))),
        0x02 => exactly(list, ID_SIZE, OutOrder::Enroll),
        0x03 => read_cancel(list),
        0x04..=0x06 => Err(Condition::InvalidField),
        0x07 => exactly(list, 8, OutOrder::Revoke(wire::be64(list, 0))),
        0x08 => exactly(list, 8, OutOrder::RevokeAll(wire::be64(list, 0))),
        0x09 => exactly(
            list,
            16,
            OutOrder::Assign(wire::be64(list, 0), wire::be64(list, 8)),
        ),
        0x0a => exactly(list, 8, OutOrder::Release(wire::be64(list, 0))),
        0x0b..=0xff => Err(Condition::InvalidField),
    }
}

// While access controls are off, an order is itself or nothing.
pub fn in_force(on: bool, o: OutOrder) -> OutOrder
    ensures { result ≡ force_of on o }
{
    if on {
        return o;
    }
    match o {
        OutOrder::Manage | OutOrder::Assign(..) => o,
        _ => OutOrder::NoAction,
    }
}

// REQUEST PROXY TOKEN: its allocation length has room for a token; while disabled it is "GOOD with 0 bytes".
fn request_command(on: bool, cdb: &[u8]) -> Result<Command, Condition>
    ensures { (list : List ℕ) → meant_by cdb.now list result ≡ forced on (read_request cdb.now) }
{
    if wire::be32(cdb, 10) < 8 {
        return Err(Condition::InvalidField);
    }
    if on {
        Ok(Command::Request(wire::be64(cdb, 2)))
    } else {
        Ok(Command::Out(OutOrder::NoAction))
    }
}

// An IN command by its service action; the reserved ones are not supported.
fn in_command(on: bool, cdb: &[u8]) -> Result<Command, Condition>
    ensures { (list : List ℕ) → meant_by cdb.now list result ≡ forced on (read_in cdb.now) }
{
    match service_action(cdb) {
        0x00 => Ok(Command::Report),
        0x01..=0x03 => Err(Condition::InvalidField),
        0x04 => request_command(on, cdb),
        0x05..=0xff => Err(Condition::InvalidField),
    }
}

// An OUT command.
fn out_command(on: bool, action: u8, list: &[u8]) -> Result<Command, Condition>
    ensures { (cdb : List ℕ) → meant_by cdb list.now result ≡ forced on (read_out action list.now) }
{
    read_out(action, list).map(|o| Command::Out(in_force(on, o)))
}

// A command by its operation code, or the condition that its bytes meet first.
pub fn command_of(on: bool, cdb: &[u8], list: &[u8]) -> Result<Command, Condition>
    ensures { meant_by cdb.now list.now result ≡ forced on (reading_of cdb.now list.now) }
{
    match wire::byte(cdb, 0) {
        0x86 => in_command(on, cdb),
        0x87 => out_command(on, service_action(cdb), list),
        _ => Err(Condition::OtherOperation),
    }
}
