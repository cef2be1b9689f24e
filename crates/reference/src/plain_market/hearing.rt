// The plain market hears a message.
ghost use Rattle.reference.specs.Plain.{plain_limits, plain_reports, plain_world};
ghost use Rattle.venue.specs.World.{says};
ghost use Rattle.wire.specs.Means.{message_of, report_of};
ghost use Rattle.std.specs.Prelude.{◌≡◌, map, length};

use super::PlainMarket;
use wire::{Message, Report};

impl PlainMarket {
    // A message of a kind that there isn't yet is refused. `bytes` are those that the message was read from.
    pub fn hear(&mut self, message: Message, bytes: &[u8])
        ensures market { plain_world self.new ≡ (says (plain_limits self.old) (plain_world self.old) (message_of bytes.now (length (plain_world self.old).items) message)).0 }
        ensures reports { plain_reports self.new ≡ (says (plain_limits self.old) (plain_world self.old) (message_of bytes.now (length (plain_world self.old).items) message)).1 }
        ensures limits { plain_limits self.new ≡ plain_limits self.old }
    {
        self.told.reports.clear();
        if self.kinds.contains(message.kind()) {
            self.told.obey(message, bytes);
        } else {
            self.told.reports.push_reserved(Report::Refused);
        }
    }

    // The reports of the last message, in their order.
    pub fn reports(&self) -> &[Report]
        ensures { map report_of result.now ≡ plain_reports self.now }
    {
        self.told.reports.as_slice()
    }
}
