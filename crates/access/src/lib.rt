// Who may do what: the calls that take a card, the roles that may make each, and each call under a role. A role that may not make a call gets 22,
// before every other check, and every buffer stays as it was; for one that may, roles change nothing.
// Every function equals a definition of the scheme's Roles, or one of the scheme under a role. Nothing is assumed.

#![tactic(auto)]

ghost use Rattle.std.specs.Prelude.{◌≡◌, true, false, [], ◌∷◌, MatchResult};
ghost use Rattle.counts.specs.Codes.{not_permitted};
ghost use Rattle.counts.specs.Refused.{number, code_in};
ghost use Rattle.scheme.specs.Roles as R;
ghost use Rattle.scheme.specs.Changes as S;
ghost use Rattle.scheme.specs.Asks as Q;
ghost use Rattle.scheme.specs.Calls as C;
ghost use Rattle.scheme.specs.Pools as P;
ghost use Rattle.standard.specs.Standard.{standard};
ghost use Rattle.changes.specs.Kinds.{change_of};
ghost use Rattle.judging.specs.Causes.{verdict_in, cause_in};
ghost use Rattle.audits.specs.Moments.{moment_of};
ghost use Rattle.access.specs.Permissions.{permission_of};

use changes::Change;
use counts::refusal::Refusal;
use judging::{Reason, Verdict};
use schedule::Time;

// What a call that is lent a card does. An ask does what its change does.
#[derive(Clone, Copy)]
pub enum Permission {
    Update,
    Delete,
    Append,
    Load,
    Batch,
    Commit,
    Drop,
    Draw,
    Judge,
    Cause,
    Pool,
}

// The roles.
const SURVEYOR: u64 = 1;

const PLANNER: u64 = 2;

const MANAGER: u64 = 3;

// Whether a role is the one named.
fn is(role: u64, a: u64) -> bool
    ensures { result ≡ R.among role (a ∷ []) }
{
    role == a
}

// Whether a role is one of the two named.
fn is_either(role: u64, a: u64, b: u64) -> bool
    ensures { result ≡ R.among role (a ∷ b ∷ []) }
{
    (role == a) | (role == b)
}

// Whether a role may: the surveyor appends and loads, the planner does everything, the manager draws, judges, a chain in one reply
// too, and asks the cause. No other role may do anything.
pub fn permits(role: u64, permission: Permission) -> bool
    ensures { result ≡ R.permits role (permission_of permission) }
{
    match permission {
        Permission::Update => is(role, PLANNER),
        Permission::Delete => is(role, PLANNER),
        Permission::Append => is_either(role, SURVEYOR, PLANNER),
        Permission::Load => is_either(role, SURVEYOR, PLANNER),
        Permission::Batch => is(role, PLANNER),
        Permission::Commit => is(role, PLANNER),
        Permission::Drop => is(role, PLANNER),
        Permission::Draw => is_either(role, PLANNER, MANAGER),
        Permission::Judge => is_either(role, PLANNER, MANAGER),
        Permission::Cause => is_either(role, PLANNER, MANAGER),
        Permission::Pool => is_either(role, PLANNER, MANAGER),
    }
}

impl Permission {
    // Refuses a role that has it not.
    fn check(self, role: u64) -> Result<(), Refusal>
        ensures { MatchResult result (λ _. R.permits role (permission_of self) ≡ true) (λ e. (number e ≡ not_permitted) × (R.permits role (permission_of self) ≡ false)) }
    {
        if permits(role, self) {
            Ok(())
        } else {
            Err(Refusal::NotPermitted)
        }
    }
}

// What a change does, in one step or asked.
impl<'a> From<Change<'a>> for Permission {
    ghost from_gives = { λ change permission. permission_of permission ≡ R.change_permission (change_of change) };

    fn from(change: Change<'a>) -> Permission {
        match change {
            Change::Update { .. } => Permission::Update,
            Change::Delete { .. } => Permission::Delete,
            Change::Append { .. } => Permission::Append,
            Change::Load { .. } => Permission::Load,
            Change::Batch { .. } => Permission::Batch,
        }
    }
}

// A change in one step, under a role.
pub fn change(
    role: u64,
    master: &[u8],
    card: &mut [u8],
    table: &mut [u8],
    change: Change,
    totals: &mut [u8],
) -> Result<(), Refusal>
    ensures value { code_in result ≡ R.under role (R.change_permission (change_of change.entry)) (S.change_code standard master.now card.old table.old (change_of change.entry) totals.old) not_permitted }
    ensures card_after { card.new ≡ R.under role (R.change_permission (change_of change.entry)) (S.change_card standard master.now card.old table.old (change_of change.entry) totals.old) card.old }
    ensures table_after { table.new ≡ R.under role (R.change_permission (change_of change.entry)) (S.change_table standard master.now card.old table.old (change_of change.entry) totals.old) table.old }
    ensures totals_after { totals.new ≡ R.under role (R.change_permission (change_of change.entry)) (S.change_totals standard master.now card.old table.old (change_of change.entry) totals.old) totals.old }
{
    Permission::from(change).check(role)?;
    changes::make(master, card, table, change, totals)
}

// A change asked, under a role.
pub fn ask(
    role: u64,
    master: &[u8],
    card: &mut [u8],
    table: &[u8],
    second: &mut [u8],
    change: Change,
    totals: &mut [u8],
) -> Result<(), Refusal>
    ensures value { code_in result ≡ R.under role (R.change_permission (change_of change.entry)) (Q.ask_code standard master.now card.old table.now second.old (change_of change.entry) totals.old) not_permitted }
    ensures card_after { card.new ≡ R.under role (R.change_permission (change_of change.entry)) (Q.ask_card standard master.now card.old table.now second.old (change_of change.entry) totals.old) card.old }
    ensures second_after { second.new ≡ R.under role (R.change_permission (change_of change.entry)) (Q.ask_second standard master.now card.old table.now second.old (change_of change.entry) totals.old) second.old }
    ensures totals_after { totals.new ≡ R.under role (R.change_permission (change_of change.entry)) (Q.ask_totals standard master.now card.old table.now second.old (change_of change.entry) totals.old) totals.old }
{
    Permission::from(change).check(role)?;
    asks::ask(master, card, table, second, change, totals)
}

// A commit, under a role.
pub fn commit(role: u64, card: &mut [u8]) -> Result<(), Refusal>
    ensures value { code_in result ≡ R.under role R.may_commit (Q.settle_code card.old) not_permitted }
    ensures card_after { card.new ≡ R.under role R.may_commit (Q.commit_card card.old) card.old }
{
    Permission::Commit.check(role)?;
    asks::commit(card)
}

// A drop, under a role.
pub fn drop(role: u64, card: &mut [u8]) -> Result<(), Refusal>
    ensures value { code_in result ≡ R.under role R.may_drop (Q.settle_code card.old) not_permitted }
    ensures card_after { card.new ≡ R.under role R.may_drop (Q.drop_card card.old) card.old }
{
    Permission::Drop.check(role)?;
    asks::drop(card)
}

// A draw, under a role.
pub fn draw(
    role: u64,
    master: &[u8],
    card: &mut [u8],
    message: &mut [u8],
    plan: &[u8],
    time: Time,
) -> Result<(), Refusal>
    ensures value { code_in result ≡ R.under role R.may_draw (C.draw_code standard master.now card.old message.old plan.now (moment_of time)) not_permitted }
    ensures card_after { card.new ≡ R.under role R.may_draw (C.draw_card standard master.now card.old message.old plan.now (moment_of time)) card.old }
    ensures message_after { message.new ≡ R.under role R.may_draw (C.draw_message standard master.now card.old message.old plan.now (moment_of time)) message.old }
{
    Permission::Draw.check(role)?;
    audits::draw(master, card, message, plan, time)
}

// A judgement, under a role.
pub fn judge(role: u64, master: &[u8], card: &mut [u8], reply: &[u8]) -> Result<Verdict, Refusal>
    ensures value { verdict_in result ≡ R.under role R.may_judge (C.judge_code standard master.now card.old reply.now) not_permitted }
    ensures card_after { card.new ≡ R.under role R.may_judge (C.judge_card standard master.now card.old reply.now) card.old }
{
    Permission::Judge.check(role)?;
    judging::judge(master, card, reply)
}

// The cause of a rejected reply, under a role. Writes nothing.
pub fn cause(role: u64, master: &[u8], card: &[u8], reply: &[u8]) -> Result<Option<Reason>, Refusal>
    ensures { cause_in result ≡ R.under role R.may_cause (C.cause_code standard master.now card.now reply.now) not_permitted }
{
    Permission::Cause.check(role)?;
    judging::cause(master, card, reply)
}

// A pooled judgement, under a role.
pub fn judge_pool(
    role: u64,
    master: &[u8],
    cards: &mut [u8],
    reply: &[u8],
) -> Result<Verdict, Refusal>
    ensures value { verdict_in result ≡ R.under role R.may_pool (P.pool_code standard master.now cards.old reply.now) not_permitted }
    ensures cards_after { cards.new ≡ R.under role R.may_pool (P.pool_cards standard master.now cards.old reply.now) cards.old }
{
    Permission::Pool.check(role)?;
    pools::judge_pool(master, cards, reply)
}
