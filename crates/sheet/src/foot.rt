// The totals at the foot of the sheet (docs/REFERENCE.md, P10), put on a page.
ghost use Rattle.std.specs.Prelude.{◌≡◌, ◌+◌, ◌-◌, ◌<◌, ◌≤◌};
ghost use Rattle.meaning.specs.Lists.{total};
ghost use Rattle.meaning.specs.Totals.{sum};
ghost use Rattle.meaning.specs.Sheet.{met_line, met_lines, all_met_lines};
ghost use Rattle.monitor.specs.Calls.{stretch, totals_of};
ghost use Rattle.sheet.specs.Lines.{foot_of};
ghost use Rattle.sheet.specs.Pages.{Printed};

use super::page::Page;
use monitor::letters_end;
use rules::Watch;

impl<'a> Page<'a> {
    // How often a letter of a monitor was met.
    fn met(&mut self, monitor: u64, letter: u64, count: u64)
        requires { (monitor < 32) × (letter < 256) × (count < 4294967296) × (self.old.at < 4294967296) }
        ensures printed { Printed self.old self.new (met_line monitor letter count) }
        ensures short { self.new.at ≤ self.old.at + 24 }
    {
        self.text(b"met");
        self.number(monitor);
        self.number(letter);
        self.number(count);
        self.byte(b'\n');
    }

    // The letters of a monitor, from one up to another; the sum of their numbers.
    fn letters(&mut self, monitor: usize, from: usize, to: usize, totals: &[u32; 256]) -> u64
        requires { (monitor < 32) × (to ≤ 256) × (self.old.at < 4294000000) }
        ensures printed { Printed self.old self.new (met_lines monitor 0 (stretch totals.now (to - from) from)) }
        ensures short { self.new.at ≤ self.old.at + 6144 }
        ensures summed { result ≡ total (λ n. n) (stretch totals.now (to - from) from) }
        ensures small { result ≤ 1099511627776 }
    {
        let mut sum: u64 = 0;
        for letter in from..to {
            let count = u64::from(totals[letter]);
            self.met(monitor as u64, (letter - from) as u64, count);
            sum += count;
        }
        sum
    }

    // All monitors, of 32 monitors and 256 letters at most; the sum of their numbers.
    fn monitors(&mut self, watch: &Watch) -> u64
        requires { self.old.at < 4293000000 }
        ensures printed { Printed self.old self.new (all_met_lines 0 (totals_of watch.now)) }
        ensures short { self.new.at ≤ self.old.at + 196608 }
        ensures summed { result ≡ sum (totals_of watch.now) }
    {
        let mut sum: u64 = 0;
        for monitor in 0..watch.monitors.min(32) {
            let from = usize::from(watch.firsts[monitor]);
            let to = letters_end(&watch.firsts, watch.monitors, watch.letters, monitor);
            sum += self.letters(monitor, from, to, &watch.totals);
        }
        sum
    }

    // The totals of a watch, and their sum.
    pub(crate) fn foot(&mut self, watch: &Watch)
        requires { self.old.at < 4293000000 }
        ensures printed { Printed self.old self.new (foot_of watch.now) }
        ensures short { self.new.at ≤ self.old.at + 196672 }
    {
        let sum = self.monitors(watch);
        self.text(b"total");
        self.number(sum);
        self.byte(b'\n');
    }
}
