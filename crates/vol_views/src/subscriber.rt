//! One thread's access to the published version. Learning a log prefix is in `view.rt`.
ghost use Rattle.std.specs.Prelude.{◌≡◌, ◌≢◌, [], IfOk, IfErr};
ghost use mathlib.Core.List.{IsPrefix};
ghost use Rattle.vol_volume.specs.Answer.{Answers};
ghost use Rattle.vol_volume.specs.Journal.{after};
ghost use Rattle.vol_receipts.specs.Agrees.{start};
ghost use Rattle.vol_views.specs.Logs.{history_of, origin_in, number_of};
ghost use Rattle.vol_views.specs.PublishedRule.{IsRight};

use crate::published::Published;
use crate::published_rule::{Enter, OneHistory};
use crate::seen_prefix::SeenPrefix;
use left_right::reader::Reader;
use std::alloc::Global;
use std::marker::Model;
use vol_dir::Refusal;
use vol_volume::{Query, Reply};

/// One thread's access to the published version. It takes no lock. Contracts see the log prefix that it last read or was given.
#[derive(Drop)]
pub struct Subscriber {
    pub(crate) reader: Reader<Published, SeenPrefix, OneHistory>,
}

impl Model for Subscriber {
    ghost use Rattle.std.specs.Prelude.{◌≢◌, []};
    ghost use Rattle.vol_views.specs.History.{Reached};

    ghost Value = { Reached };

    ghost view = { λ s. s.reader.place.me.0.client };

    ghost invariant = { λ s. s.reader.place.me.0.client.log ≢ [] };
}

/// A query's answer from the published version.
#[derive(Drop)]
pub struct Answered {
    /// The number of records that the answer reflects, including records that were cut.
    pub at: u64,
    /// The log prefix of those records.
    pub prefix: SeenPrefix,
    /// The reply or the refusal.
    pub reply: Result<Reply, Refusal>,
}

impl Subscriber {
    /// Runs a query on the published version. Returns only the subscriber if it couldn't enter the version, which happens only after the publisher
    /// has ended.
    ///
    /// Takes as much memory and time as [`crate::Version::ask`], and never waits.
    pub fn ask(self, alloc: Global, query: &Query) -> Result<(Subscriber, Answered), Subscriber>
        ensures book { IfOk result (λ (subscriber, answered). subscriber.book ≡ self.book) }
        ensures goes_on { IfOk result (λ (subscriber, answered). IsPrefix self.log subscriber.log) }
        ensures begun { IfOk result (λ (subscriber, answered). subscriber.log ≢ []) }
        ensures prefix { IfOk result (λ (subscriber, answered). answered.prefix ≡ subscriber) }
        ensures at { IfOk result (λ (subscriber, answered). answered.at ≡ number_of subscriber.log) }
        ensures reply { IfOk result (λ (subscriber, answered). Answers (after (start (origin_in subscriber.log)) (history_of subscriber.log)).tree query.now answered.reply) }
        ensures same { IfErr result (λ same. same ≡ self) }
    {
        match self.reader.enter_as::<Enter>() {
            Ok(reading) => {
                let published = reading.get();
                let answered = answer(alloc, published, query);
                let subscriber = Subscriber {
                    reader: reading.leave(),
                };
                Ok((subscriber, answered))
            }
            Err(reader) => Err(Subscriber { reader }),
        }
    }
}

/// Returns the answer of the published version.
fn answer(alloc: Global, published: &Published, query: &Query) -> Answered
    requires { IsRight published.now }
    ensures prefix { result.prefix ≡ published.now.prefix }
    ensures at { result.at ≡ published.now.at }
    ensures reply { Answers (after (start (origin_in published.now.prefix.log)) (history_of published.now.prefix.log)).tree query.now result.reply }
{
    Answered {
        at: published.at,
        prefix: published.prefix.again(),
        reply: published.version.ask(alloc, query),
    }
}
