// Laws of walks over packets, each on a function that does nothing.
ghost use Rattle.std.specs.Prelude.{ℕ, List};
ghost use Rattle.la_base.specs.declared.wires.Packet.{Packet};
ghost use Rattle.packet_walks.specs.Promises.{KeepsPromises};
ghost use Rattle.packet_walks.specs.laws.TransactionPromises.{TransactionsKeepPromises};

/// What follows for outputs that go on as a sound walk over packets says. No packets give nothing,
/// what was given stays, one more packet adds at most 16 outputs, packets are of the wire that is
/// given, their starts never fall, and nothing that more packets add starts before the near place.
pub fn walk_laws<H>()
    ensures { KeepsPromises H }
{}

/// A device that owes what it does with one packet of the transaction that is open has what follows
/// for a walk, and gives no packets; nothing that more packets add starts before the packet that
/// opened the present transaction.
pub fn transaction_laws<O>()
    ensures { TransactionsKeepPromises O }
{}
