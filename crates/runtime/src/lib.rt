// The runtime: one entry for every command, by its function id.
#![tactic(auto)]

ghost use Rattle.std.specs.Prelude.{◌≡◌};
ghost use Rattle.queue.specs.Queue.{lists_of};
ghost use Rattle.runtime.specs.Step.{world_of, call_with, kind_of, call_of, call_exit, exit_by};

use boot::Record;
use codes::{Answer, Code, Work};
use features::UpdateResult;
use queue::{Queue, QueueResult};
use token::{Session, TokenResult};

// A runtime command. `Unlisted` is any other function id.
#[derive(Clone, Copy)]
pub enum Kind {
    ForwardError,
    Delegate,
    Undelegate,
    RealmKey,
    PlatformToken,
    Features,
    TokenSigning,
    KeyUpdate,
    Unlisted,
}

// The reply to a call: either err_code for the Non-secure world, or the result registers and what the platform must do next.
// No `Result`, which is no plainer: these are two kinds of reply, neither of which is a failure.
#[derive(Clone, Copy)]
pub enum Reply {
    Forward(u64),
    Back { answer: Answer, work: Work },
}

// The reply of a call with the next token session and signing queue.
#[derive(Clone, Copy)]
pub struct StepResult {
    pub reply: Reply,
    pub session: Session,
    pub queue: Queue,
}

// The command of a function id. Compares all 64 bits of `id`.
impl From<u64> for Kind {
    ghost from_gives = { λ id kind. kind ≡ kind_of id };

    fn from(id: u64) -> Kind {
        match id {
            0xC400_018F => Kind::ForwardError,
            0xC400_01B0 => Kind::Delegate,
            0xC400_01B1 => Kind::Undelegate,
            0xC400_01B2 => Kind::RealmKey,
            0xC400_01B3 => Kind::PlatformToken,
            0xC400_01B4 => Kind::Features,
            0xC400_01B5 => Kind::TokenSigning,
            0xC400_01B6 => Kind::KeyUpdate,
            _ => Kind::Unlisted,
        }
    }
}

// Returns a reply with no work for the platform.
fn back(answer: Answer) -> Reply
    ensures { result ≡ Reply.Back answer Work.Nothing }
{
    Reply::Back {
        answer,
        work: Work::Nothing,
    }
}

// The reply to a key update: its answer and its work.
fn updated(done: UpdateResult) -> Reply
    ensures { result ≡ Reply.Back done.answer done.work }
{
    let answer = done.answer;
    let work = done.work;
    Reply::Back { answer, work }
}

// The result of a platform token call; `queue` is unchanged.
fn after_token(done: TokenResult, queue: Queue) -> StepResult
    ensures { result ≡ record { reply = Reply.Back done.answer Work.Nothing; session = done.session; queue = queue } }
{
    let answer = done.answer;
    let session = done.session;
    StepResult {
        reply: back(answer),
        session,
        queue,
    }
}

// The result of a token signing call; `session` is unchanged.
fn after_signing(done: QueueResult, session: Session) -> StepResult
    ensures { result ≡ record { reply = Reply.Back done.answer Work.Nothing; session = session; queue = done.queue } }
{
    let answer = done.answer;
    let queue = done.queue;
    StepResult {
        reply: back(answer),
        session,
        queue,
    }
}

// Runs the command of function id `id` and returns its reply, the next session and the next queue. `x1` to `x4` are the argument registers;
// `words` are the realm words of `table`, `key` is the realm key, `public` the public key of token signing, and `width` MECIDWidthm1.
pub fn call(
    state: Record,
    granules: &[u64; 33],
    id: u64,
    x1: u64,
    x2: u64,
    x3: u64,
    x4: u64,
    page: &mut [u8],
    table: &mut [u8],
    words: &mut [u64],
    key: &[u8],
    busy: bool,
    token: &[u8],
    session: Session,
    queue: Queue,
    public: &[u8],
    width: u64,
) -> StepResult
    ensures { call_exit result page.new table.new words.new ≡ exit_by (kind_of id) queue
        (call_of granules.now (world_of page.old table.old words.old session (lists_of queue))
        (call_with state id x1 x2 x3 x4 busy key.now token.now public.now width)) }
{
    let kind = Kind::from(id);
    match kind {
        Kind::ForwardError => {
            let error = features::forward(state, x1);
            StepResult {
                reply: Reply::Forward(error),
                session,
                queue,
            }
        }
        Kind::Delegate => {
            let answer = granules::delegate(state, granules, table, words, x1);
            StepResult {
                reply: back(answer),
                session,
                queue,
            }
        }
        Kind::Undelegate => {
            let answer = granules::undelegate(state, granules, table, words, x1);
            StepResult {
                reply: back(answer),
                session,
                queue,
            }
        }
        Kind::RealmKey => {
            let answer = attest::realm_key(state, page, key, x1, x2, x3);
            StepResult {
                reply: back(answer),
                session,
                queue,
            }
        }
        Kind::PlatformToken => {
            let done = token::platform_token(state, page, session, busy, token, x1, x2, x3);
            after_token(done, queue)
        }
        Kind::Features => {
            let answer = features::features(state, x1);
            StepResult {
                reply: back(answer),
                session,
                queue,
            }
        }
        Kind::TokenSigning => {
            let done = signing::token_signing(state, page, queue, public, x1, x2, x3, x4);
            after_signing(done, session)
        }
        Kind::KeyUpdate => {
            let done = features::key_update(state, width, x1);
            StepResult {
                reply: updated(done),
                session,
                queue,
            }
        }
        Kind::Unlisted => {
            let answer = Answer::refused(Code::Unk);
            StepResult {
                reply: back(answer),
                session,
                queue,
            }
        }
    }
}
