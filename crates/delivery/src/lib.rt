// One causal delivery, through the record of the process and the table of the message.
#![tactic(auto)]

ghost use Rattle.std.specs.Prelude.{◌<◌};
ghost use Rattle.definitions.specs.World.{view, group, stamp, causal_length};
ghost use Rattle.definitions.specs.Machine.{causal_one};
ghost use Rattle.world.specs.Layout.{Reads, Changes};
ghost use Rattle.bounds.specs.Bounds.{Bounds};
ghost use Rattle.delivery.specs.Delivery.{record_after};

use cells::Words;

// The record of process p after the delivery of message m from q.
pub fn record_after(w: &Words, p: usize, m: usize, q: usize) -> records::Process
    requires p_in { p < 16 }
    requires m_in { m < 64 }
    requires q_in { q < 16 }
    requires group_in { view w.now (group p) < 8 }
    ensures { Reads w.now result (λ s. record_after s p m q (s (stamp m (s (group p)) q))) }
{
    let r = records::load(w, p);
    let t = tables::table_at(w, cells::MESSAGES + m * cells::MESSAGE + cells::STAMPS);
    let g = cells::word(w, cells::PROCESSES + p * cells::PROCESS);
    let x = w[cells::MESSAGES + m * cells::MESSAGE + cells::STAMPS + (g * 16 + q)];
    let all = tables::raised(r.counters, t);
    r.deliver(all, q, x)
}

// Item i of p's FIFO log delivered causally.
pub fn causal_one(w: &mut Words, p: usize, i: usize)
    requires p_in { p < 16 }
    requires i_in { i < 64 }
    requires bounds { Bounds (view w.old) }
    requires room { view w.old (causal_length p) < 64 }
    ensures { Changes w.old w.new (λ s. causal_one s p i) }
{
    let m = cells::word(w, cells::PROCESSES + p * cells::PROCESS + cells::FIFO + i);
    let q = cells::word(w, cells::MESSAGES + m * cells::MESSAGE);
    let after = record_after(w, p, m, q);
    logs::push(w, p, true, m);
    records::store(w, p, after);
}
