//! The ports of an app, with the links that they lead to.
ghost use Rattle.std.specs.Prelude.{◌≡◌, ◌+◌, ◌<◌, length, Some, slice_set};
ghost use Rattle.sn_link.specs.Link.{front_of, handed_back, most_queued, received, transmitted};
ghost use Rattle.sn_app.specs.Ports.{HasInputs, HasOutputs, SamePorts, in_key, in_line, ins_of, key_at, out_key};
ghost use Rattle.sn_app.specs.Ports.{out_line, outs_of, place_of, slots_of};

use slab::Slab;
use sn_link::Link;
use sn_names::Name;

/// The links of a worker, and the ports of one app: for each its name, and its link's key.
pub struct Ports<'a> {
    pub links: &'a mut Slab<Link>,
    pub ins: &'a [(Name, usize)],
    pub outs: &'a [(Name, usize)],
}

/// The place of a named port.
fn find(ports: &[(Name, usize)], name: &[u8]) -> Option<usize>
    ensures { result ≡ place_of ports.now name.now }
{
    ports
        .iter()
        .position(|port| port.0.as_str().as_bytes() == name)
}

/// The key of the port at a place.
fn key_of(ports: &[(Name, usize)], i: usize) -> usize
    requires { i < length ports.now }
    ensures { result ≡ key_at ports.now i }
{
    ports[i].1
}

impl<'a> Ports<'a> {
    /// The ports of an app, in the order that is used.
    pub fn new(
        links: &'a mut Slab<Link>,
        ins: &'a [(Name, usize)],
        outs: &'a [(Name, usize)],
    ) -> Ports<'a>
        ensures ins { ins_of result ≡ ins.now }
        ensures outs { outs_of result ≡ outs.now }
        ensures slots { slots_of result ≡ links.entry.now.slots }
    {
        Ports { links, ins, outs }
    }

    /// How many inputs there are.
    pub fn ins(&self) -> usize
        ensures { result ≡ length (ins_of self.now) }
    {
        self.ins.len()
    }

    /// How many outputs there are.
    pub fn outs(&self) -> usize
        ensures { result ≡ length (outs_of self.now) }
    {
        self.outs.len()
    }

    /// The place of an input by its name, None where it isn't linked.
    pub fn input(&self, port: &[u8]) -> Option<usize>
        ensures { result ≡ place_of (ins_of self.now) port.now }
    {
        find(self.ins, port)
    }

    /// The place of an output by its name, None where it isn't linked.
    pub fn output(&self, port: &[u8]) -> Option<usize>
        ensures { result ≡ place_of (outs_of self.now) port.now }
    {
        find(self.outs, port)
    }

    /// How many packets an input has.
    pub fn readable(&self, i: usize) -> u32
        requires i { i < length (ins_of self.now) }
        requires links { HasInputs self.now }
        ensures { result ≡ length (in_line self.now i).queued }
    {
        let key = key_of(self.ins, i);
        self.links[key].nreadable()
    }

    /// The place of the packet at the front of an input.
    pub fn front(&self, i: usize) -> Option<u32>
        requires i { i < length (ins_of self.now) }
        requires links { HasInputs self.now }
        ensures { result ≡ front_of (in_line self.now i) }
    {
        let key = key_of(self.ins, i);
        self.links[key].front()
    }

    /// Takes the packet at the front of an input. None exactly where it has none.
    pub fn receive(&mut self, i: usize) -> Option<u32>
        requires i { i < length (ins_of self.old) }
        requires links { HasInputs self.old }
        ensures place { result ≡ front_of (in_line self.old i) }
        ensures slots { slots_of self.new
            ≡ slice_set (slots_of self.old) (in_key self.old i) (Some (received (in_line self.old i))) }
        ensures same { SamePorts self.old self.new }
    {
        let key = key_of(self.ins, i);
        self.links[key].receive()
    }

    /// How many packets an output takes before one is dropped.
    pub fn room(&self, o: usize) -> u32
        requires o { o < length (outs_of self.now) }
        requires links { HasOutputs self.now }
        ensures { result + length (out_line self.now o).queued ≡ most_queued }
    {
        let key = key_of(self.outs, o);
        self.links[key].nwritable()
    }

    /// Sends the packet at a place, with its length. Where the link is full it hands the place back.
    pub fn transmit(&mut self, o: usize, place: u32, len: u32) -> Option<u32>
        requires o { o < length (outs_of self.old) }
        requires links { HasOutputs self.old }
        ensures back { result ≡ handed_back place (out_line self.old o) }
        ensures slots { slots_of self.new
            ≡ slice_set (slots_of self.old) (out_key self.old o) (Some (transmitted place len (out_line self.old o))) }
        ensures same { SamePorts self.old self.new }
    {
        let key = key_of(self.outs, o);
        self.links[key].transmit(place, len)
    }
}
