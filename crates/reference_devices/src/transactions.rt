// Transactions: the whole list of packets, cut where one ends, and what each gives.
ghost use Rattle.std.specs.Prelude.{◌≡◌, ◌++◌, ◌∷◌, [], IfOk, OnOk};
ghost use Rattle.packet_walks.specs.Transactions.{Device, closed_outs, from_first, open_outs};
ghost use Rattle.packet_walks.specs.Transactions.{transaction_outs};

use la_base::{Out, Packet};
use std::alloc::{AllocError, Global};

/// A device by its transactions.
pub trait Transacts {
    ghost device: { Self → Device };

    /// Whether a packet begins one.
    fn begins(&self, packet: Packet) -> bool
        ensures { result ≡ (device self.now).begins packet };

    /// Whether it ends one.
    fn ends(&self, packet: Packet) -> bool
        ensures { result ≡ (device self.now).ends packet };

    /// Appends what packets inside of one give.
    fn add_inside(&self, packets: &[Packet], outs: &mut Vec<Out>) -> Result<(), AllocError>
        ensures { OnOk result
            (outs.new.items ≡ outs.old.items ++ (device self.now).inside packets.now) };

    /// Appends what the packet gives that ends it behind these.
    fn add_closing(&self, packets: &[Packet], outs: &mut Vec<Out>) -> Result<(), AllocError>
        ensures { OnOk result
            (outs.new.items ≡ outs.old.items ++ (device self.now).closing packets.now) };
}

// From the first packet on that begins a transaction.
fn from_first<'a, D: Transacts>(device: &D, packets: &'a [Packet]) -> &'a [Packet]
    ensures { result.now ≡ from_first (D.device device.now).begins packets.now }
{
    for (place, packet) in packets.iter().enumerate() {
        if device.begins(*packet) {
            let (_, transaction) = packets.split_at(place);
            return transaction;
        }
    }
    &[]
}

// Appends what a transaction gives that nothing has ended.
fn add_open<D: Transacts>(
    device: &D,
    transaction: &[Packet],
    outs: &mut Vec<Out>,
) -> Result<(), AllocError>
    ensures { OnOk result
        (outs.new.items ≡ outs.old.items ++ open_outs (D.device device.now) transaction.now) }
{
    match transaction.split_first() {
        Some((_, packets)) => device.add_inside(packets, outs),
        None => Ok(()),
    }
}

// Appends what a transaction gives that has been ended.
fn add_closed<D: Transacts>(
    device: &D,
    transaction: &[Packet],
    outs: &mut Vec<Out>,
) -> Result<(), AllocError>
    ensures { OnOk result
        (outs.new.items ≡ outs.old.items ++ closed_outs (D.device device.now) transaction.now) }
{
    match transaction.split_first() {
        Some((_, packets)) => {
            device.add_inside(packets, outs)?;
            device.add_closing(packets, outs)
        }
        None => Ok(()),
    }
}

// A list of one packet.
fn alone(alloc: Global, packet: Packet) -> Result<Vec<Packet>, AllocError>
    ensures { IfOk result (λ list. list.items ≡ packet ∷ []) }
{
    let mut list = Vec::new(alloc);
    list.push(packet)?;
    Ok(list)
}

/// All that packets give, by the definition of the device.
pub fn outputs_by<D: Transacts>(
    alloc: Global,
    device: &D,
    packets: &[Packet],
) -> Result<Vec<Out>, AllocError>
    ensures { IfOk result
        (λ outs. outs.items ≡ transaction_outs (D.device device.now) packets.now) }
{
    let mut outs = Vec::new(alloc);
    let mut rest: Vec<Packet> = Vec::new(alloc);
    for packet in packets {
        if device.ends(*packet) {
            add_closed(device, from_first(device, &rest), &mut outs)?;
            rest = alone(alloc, *packet)?;
        } else {
            rest.push(*packet)?;
        }
    }
    add_open(device, from_first(device, &rest), &mut outs)?;
    Ok(outs)
}
