//! Named ports, where they are linked.
ghost use Rattle.std.specs.Prelude.{◌≡◌, ◌<◌, length, IfNone, IfSome, None, Some};
ghost use Rattle.sn_app.specs.Apps.{input_named, output_named, out_named};
ghost use Rattle.sn_app.specs.Ports.{in_ports, in_row, ins_of, out_ports, out_row, outs_of};

use crate::Ports;

/// The place of the input named `input`, where it is linked.
pub fn linked_input(ports: &Ports<'_>) -> Option<usize>
    ensures row { IfSome result (λ i. input_named (in_ports ports.now) ≡ Some (in_row ports.now i)) }
    ensures within { IfSome result (λ i. i < length (ins_of ports.now)) }
    ensures none { IfNone result (input_named (in_ports ports.now) ≡ None) }
{
    ports.input(b"input")
}

/// The place of the output named `output`, where it is linked.
pub fn linked_output(ports: &Ports<'_>) -> Option<usize>
    ensures row { IfSome result (λ o. output_named (out_ports ports.now) ≡ Some (out_row ports.now o)) }
    ensures within { IfSome result (λ o. o < length (outs_of ports.now)) }
    ensures none { IfNone result (output_named (out_ports ports.now) ≡ None) }
{
    ports.output(b"output")
}

/// The place of the output named `out`, where it is linked.
pub fn linked_out(ports: &Ports<'_>) -> Option<usize>
    ensures row { IfSome result (λ o. out_named (out_ports ports.now) ≡ Some (out_row ports.now o)) }
    ensures within { IfSome result (λ o. o < length (outs_of ports.now)) }
    ensures none { IfNone result (out_named (out_ports ports.now) ≡ None) }
{
    ports.output(b"out")
}
