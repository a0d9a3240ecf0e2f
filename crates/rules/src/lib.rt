// Paper 01, "Verdicts, first that applies". A rule is given what it may see: the market's view, one desk and one order, no customer's number and no words.
#![tactic(auto)]

ghost use Rattle.std.specs.Prelude.{true, ◌≡◌};
ghost use Rattle.definitions.specs.Sound.{marked_first, priced_as, sound_security};
ghost use Rattle.definitions.specs.Rules.{verdict_of};

use definitions::codes::ONLINE;
use definitions::{Desk, MarketView, Order, Verdict};
use rule_market::{rule_c, rule_q, rule_s, rule_v, warn_10, warn_30};
use rule_rows::{covered_by_p, rule_p, rule_w};

// W and P are asked only of an order that they cover (W: "online only"), since each call copies the desk.
pub fn verdict(m: MarketView, d: Desk, o: Order) -> Verdict
    requires { (sound_security m.security ≡ true) × (priced_as o.order_type o.price ≡ true) × (marked_first d.rows ≡ true) }
    ensures { result ≡ verdict_of (record { market = m; desk = d }) o }
{
    if rule_s(m, o) {
        return Verdict::RejectS;
    }
    if rule_v(m, o) {
        return Verdict::RejectV;
    }
    if rule_c(m, o) {
        return Verdict::RejectC;
    }
    if rule_q(m, o) {
        return Verdict::RejectQ;
    }
    if o.channel == ONLINE && rule_w(m, d, o) {
        return Verdict::RejectW;
    }
    if covered_by_p(m.session, o) && rule_p(m, d, o) {
        return Verdict::RejectP;
    }
    if warn_30(m, o) {
        return Verdict::Warn30;
    }
    if warn_10(m, o) {
        return Verdict::Warn10;
    }
    Verdict::Accept
}
