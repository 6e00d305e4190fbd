//! The names of channels, as they stand in the record.

ghost use Rattle.std.specs.Prelude.{◌≡◌, ◌+◌, ◌<◌, ◌≤◌, ◌++◌, length, take};
ghost use Rattle.emtp_case.specs.ChannelName.{name_of_node, name_of_ends, name_of_branch, name_of_switch, name_of_channel, name_of_var};

use crate::case::Case;
use crate::channel::Channel;

impl Case {
    /// Writes the name of a channel, and answers its length: a letter, a blank, and the node, the variable or both
    /// ends of the branch or switch. The letter is `V` for a node's voltage, `I` for a current, `U` for a voltage
    /// between two ends, `T` for a variable and `S` for the state of a switch. Ground is `0`. This project's own.
    pub fn channel_name(&self, channel: usize, out: &mut [u8; 16]) -> usize
        requires { channel < length self.now.parts.channels }
        ensures length { result ≤ 16 }
        ensures text { take result out.new ≡ name_of_channel self.now.parts channel }
    {
        match self.parts.channels.as_slice()[channel] {
            Channel::NodeVoltage(node) => put_one(out, b"V ", self.node_name(node)),
            Channel::BranchCurrent(branch) => self.put_branch(out, b"I ", branch),
            Channel::BranchVoltage(branch) => self.put_branch(out, b"U ", branch),
            Channel::SwitchCurrent(switch) => self.put_switch(out, b"I ", switch),
            Channel::SwitchVoltage(switch) => self.put_switch(out, b"U ", switch),
            Channel::Tacs(var) => put_one(out, b"T ", self.var_name(var)),
            Channel::Status(switch) => self.put_switch(out, b"S ", switch),
        }
    }

    /// The name of a node; that of ground is `0`.
    fn node_name(&self, node: u32) -> &[u8]
        requires { node ≤ length self.now.parts.nodes }
        ensures name { result.now ≡ name_of_node self.now.parts node }
        ensures short { length result.now ≤ 6 }
    {
        if node == 0 {
            b"0"
        } else {
            self.parts.nodes.as_slice()[node as usize - 1].as_slice()
        }
    }

    fn var_name(&self, var: u32) -> &[u8]
        requires { var < length self.now.parts.vars }
        ensures name { result.now ≡ name_of_var self.now.parts var }
        ensures short { length result.now ≤ 6 }
    {
        self.parts.vars.as_slice()[var as usize].as_slice()
    }

    fn put_branch(&self, out: &mut [u8], kind: &[u8], branch: u32) -> usize
        requires branch { branch < length self.now.parts.branches }
        requires kind { length kind.now ≤ 2 }
        requires room { 16 ≤ length out.old }
        ensures length { result ≤ 16 }
        ensures text { take result out.new ≡ kind.now ++ name_of_branch self.now.parts branch }
    {
        let (from, to) = self.parts.branches.as_slice()[branch as usize].ends();
        self.put_ends(out, kind, from, to)
    }

    fn put_switch(&self, out: &mut [u8], kind: &[u8], switch: u32) -> usize
        requires switch { switch < length self.now.parts.switches }
        requires kind { length kind.now ≤ 2 }
        requires room { 16 ≤ length out.old }
        ensures length { result ≤ 16 }
        ensures text { take result out.new ≡ kind.now ++ name_of_switch self.now.parts switch }
    {
        let switch = self.parts.switches.as_slice()[switch as usize];
        self.put_ends(out, kind, switch.from, switch.to)
    }

    fn put_ends(&self, out: &mut [u8], kind: &[u8], from: u32, to: u32) -> usize
        requires from_there { from ≤ length self.now.parts.nodes }
        requires to_there { to ≤ length self.now.parts.nodes }
        requires kind { length kind.now ≤ 2 }
        requires room { 16 ≤ length out.old }
        ensures length { result ≤ 16 }
        ensures text { take result out.new ≡ kind.now ++ name_of_ends self.now.parts from to }
    {
        let at = put(out, 0, kind);
        let at = put(out, at, self.node_name(from));
        let at = put(out, at, b"-");
        put(out, at, self.node_name(to))
    }
}

fn put_one(out: &mut [u8], kind: &[u8], name: &[u8]) -> usize
    requires kind { length kind.now ≤ 2 }
    requires short { length name.now ≤ 6 }
    requires room { 16 ≤ length out.old }
    ensures length { result ≤ 16 }
    ensures text { take result out.new ≡ kind.now ++ name.now }
{
    let at = put(out, 0, kind);
    put(out, at, name)
}

/// Writes bytes at a place, and answers the place after them.
fn put(out: &mut [u8], at: usize, bytes: &[u8]) -> usize
    requires { at + length bytes.now ≤ length out.old }
    ensures place { result ≡ at + length bytes.now }
    ensures text { take result out.new ≡ take at out.old ++ bytes.now }
{
    out[at..at + bytes.len()].copy_from_slice(bytes);
    at + bytes.len()
}
