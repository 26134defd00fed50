// The law of made captures, on a function that does nothing.
ghost use Rattle.std.specs.Prelude.{ℕ, ◌≡◌};
ghost use Rattle.la_base.specs.declared.samples.Rate.{Rate};
ghost use Rattle.dec_uart.specs.Frames.{uart_outs};
ghost use Rattle.capture_make.specs.Made.{made, sent_from};
ghost use Rattle.made_laws.specs.LineTold.{made_opts, all_told};

/// At a million samples a second, a serial line of 100,000 baud in bit 2 of made captures gives the
/// byte of each transaction, one after another, and nothing else: for every seed and every number
/// of transactions.
pub fn made_lines_tell()
    ensures { (rate : Rate) → rate.num ≡ 1000000 → rate.den ≡ 1 → (seed count : ℕ)
        → uart_outs made_opts rate (made seed count) ≡ all_told 0 (sent_from seed 0 count) }
{}
