//! Answers to requests for the status, made in pieces.

use crate::metrics::metrics_of;
use ns_serve_state::{BATCH, State, Status, now_ms};
use ns_status::{
    Content, Device, Gateway, Part, Request, Route, Status as Code, head_of, page_text,
    put_devices, put_end, put_front, put_gateways,
};
use ns_types::{DevEui, GatewayId};
use std::alloc::{AllocError, Global};
use std::sync::Wait;
use std::time::Clock;

/// An answer was not given whole: memory ran out once its head was gone.
#[derive(Clone, Copy, PartialEq, Eq)]
pub(crate) struct Untold;

impl From<AllocError> for Untold {
    fn from(_error: AllocError) -> Untold {
        Untold
    }
}

// Which devices of the list are told: those from this place on, at most so many, and only those of which something is known since this
// moment, where one is given.
#[derive(Drop)]
struct DeviceRows {
    from: usize,
    left: u64,
    since_ms: Option<u64>,
    batch: Vec<(DevEui, Option<Device>)>,
}

// The gateways of the list, and from which place on they are told, at which moment.
#[derive(Drop)]
struct GatewayRows {
    all: Vec<(GatewayId, Gateway)>,
    from: usize,
    now_ms: u64,
}

// What is written of a list before its rows: its name, its tag if it has one, the moment, and whether it is the head of the response alone.
#[derive(Clone, Copy)]
struct Front {
    name: &'static str,
    tag: Option<u64>,
    now_ms: u64,
    is_head: bool,
}

// The rows that follow the piece at hand.
#[derive(Drop)]
enum Rows {
    /// None, and nothing behind them.
    None,
    Devices(DeviceRows),
    Gateways(GatewayRows),
}

/// An answer: the piece at hand, how much of it is gone, and the rows that follow it.
#[derive(Drop)]
pub(crate) struct Answer {
    text: String,
    gone: usize,
    rows: Rows,
    // Whether no row has been made.
    is_first: bool,
}

// Puts a response of a head and a body, or the head alone. It has no tag.
fn put_response(
    text: &mut String,
    code: Code,
    content: Content,
    body: &str,
    is_head: bool,
) -> Result<(), AllocError> {
    text.push_str(head_of(code, content, Some(body.len()), None).as_str())?;
    if !is_head {
        text.push_str(body)?;
    }
    Ok(())
}

// The devices that a part of the list has. A value in the query that is none is malformed, and a device that is not of the roster not found.
fn device_rows<R: Wait>(
    rt: &R,
    alloc: Global,
    status: &Status,
    part: Option<Part>,
) -> Result<DeviceRows, Code> {
    let Some(part) = part else {
        return Err(Code::Malformed);
    };
    let from = match part.after {
        None => 0,
        Some(eui) => match status.place(rt, eui) {
            Some(place) => place.saturating_add(1),
            None => return Err(Code::NotFound),
        },
    };
    let Ok(batch) = Vec::with_capacity(alloc, BATCH) else {
        return Err(Code::NoMemory);
    };
    Ok(DeviceRows {
        from,
        left: part.limit.unwrap_or(u64::MAX),
        since_ms: part.since_ms,
        batch,
    })
}

impl Answer {
    // An answer of this text alone.
    fn of(text: String) -> Answer {
        Answer {
            text,
            gone: 0,
            rows: Rows::None,
            is_first: true,
        }
    }

    // One that refuses a request.
    fn refusal(alloc: Global, why: Code, is_head: bool) -> Result<Answer, AllocError> {
        let mut text = String::with_capacity(alloc, 1024)?;
        put_response(&mut text, why, Content::Text, why.words(), is_head)?;
        Ok(Answer::of(text))
    }

    /// The begin of the answer to a request, or to one that is refused. Where memory runs out it is answered so, if there is memory for that.
    pub fn begin<R: Wait + Clock>(
        rt: &R,
        alloc: Global,
        state: &State,
        status: &Status,
        asked: Result<Request, Code>,
    ) -> Result<Answer, AllocError> {
        let (why, is_head) = match asked {
            Err(why) => (why, false),
            Ok(request) => match Answer::met(rt, alloc, state, status, request) {
                Ok(answer) => return Ok(answer),
                Err(why) => (why, request.is_head),
            },
        };
        Answer::refusal(alloc, why, is_head)
    }

    // The begin of the answer to a request.
    fn met<R: Wait + Clock>(
        rt: &R,
        alloc: Global,
        state: &State,
        status: &Status,
        request: Request,
    ) -> Result<Answer, Code> {
        let is_head = request.is_head;
        let answer = match request.route {
            Route::Page => Answer::whole(alloc, Content::Html, page_text(), is_head),
            Route::Health => Answer::whole(alloc, Content::Text, "ok\n", is_head),
            Route::Metrics => match metrics_of(rt, alloc, state, status) {
                Ok(text) => Answer::whole(alloc, Content::Metrics, text.as_str(), is_head),
                Err(_) => return Err(Code::NoMemory),
            },
            Route::Devices => return Answer::devices(rt, alloc, state, status, request),
            Route::Gateways => {
                let now_ms = now_ms(rt, state);
                let Ok(all) = status.all_gateways(rt, alloc) else {
                    return Err(Code::NoMemory);
                };
                let rows = Rows::Gateways(GatewayRows {
                    all,
                    from: 0,
                    now_ms,
                });
                let front = Front {
                    name: "gateways",
                    tag: None,
                    now_ms,
                    is_head,
                };
                Answer::list(alloc, status, rows, front)
            }
        };
        match answer {
            Ok(answer) => Ok(answer),
            Err(_) => Err(Code::NoMemory),
        }
    }

    // An answer with a body.
    fn whole(
        alloc: Global,
        content: Content,
        body: &str,
        is_head: bool,
    ) -> Result<Answer, AllocError> {
        let mut text = String::with_capacity(alloc, body.len().saturating_add(1024))?;
        put_response(&mut text, Code::Found, content, body, is_head)?;
        Ok(Answer::of(text))
    }

    // An answer with the devices, or without a body if the asker has the same rows already.
    fn devices<R: Wait + Clock>(
        rt: &R,
        alloc: Global,
        state: &State,
        status: &Status,
        request: Request,
    ) -> Result<Answer, Code> {
        // A change after this moment may be in the rows, but not in the tag, so the asker is told of it again.
        let tag = Some(status.version(rt));
        let rows = Rows::Devices(device_rows(rt, alloc, status, request.part)?);
        let answer = if request.known == tag {
            Answer::same(alloc, tag)
        } else {
            let front = Front {
                name: "devices",
                tag,
                now_ms: now_ms(rt, state),
                is_head: request.is_head,
            };
            Answer::list(alloc, status, rows, front)
        };
        answer.map_err(|_| Code::NoMemory)
    }

    // The answer that the list is the one of this tag.
    fn same(alloc: Global, tag: Option<u64>) -> Result<Answer, AllocError> {
        let mut text = String::with_capacity(alloc, 1024)?;
        text.push_str(head_of(Code::NotModified, Content::Json, None, tag).as_str())?;
        Ok(Answer::of(text))
    }

    // An answer with a list.
    fn list(
        alloc: Global,
        status: &Status,
        rows: Rows,
        front: Front,
    ) -> Result<Answer, AllocError> {
        let mut text = String::with_capacity(alloc, 32_768)?;
        text.push_str(head_of(Code::Found, Content::Json, None, front.tag).as_str())?;
        if front.is_head {
            return Ok(Answer::of(text));
        }
        put_front(&mut text, front.name, front.now_ms, status.clock_start_ms())?;
        let mut answer = Answer::of(text);
        answer.rows = rows;
        Ok(answer)
    }

    /// What is left of the piece at hand.
    pub fn left(&self) -> &[u8] {
        self.text
            .as_str()
            .as_bytes()
            .get(self.gone..)
            .unwrap_or(&[])
    }

    /// So many bytes of it went.
    pub fn went(&mut self, n: usize) {
        self.gone = self.gone.saturating_add(n);
    }

    /// Makes the next piece. False where there is none.
    pub fn go_on<R: Wait>(
        &mut self,
        rt: &R,
        alloc: Global,
        status: &Status,
    ) -> Result<bool, Untold> {
        self.text.clear();
        self.gone = 0;
        let is_done = match &mut self.rows {
            Rows::None => return Ok(false),
            Rows::Devices(rows) => {
                put_next_devices(rt, alloc, status, &mut self.text, &mut self.is_first, rows)?
            }
            Rows::Gateways(rows) => put_next_gateways(
                alloc,
                &mut self.text,
                &mut self.is_first,
                rows,
            )?,
        };
        if is_done {
            put_end(&mut self.text)?;
            self.rows = Rows::None;
        }
        Ok(true)
    }
}

// Puts the next rows of devices that are wanted, of a few batches. No lock is held once they are read. Whether there are no more.
fn put_next_devices<R: Wait>(
    rt: &R,
    alloc: Global,
    status: &Status,
    text: &mut String,
    is_first: &mut bool,
    rows: &mut DeviceRows,
) -> Result<bool, AllocError> {
    let count = status.count_all(rt);
    for _batch in 0..16u32 {
        if rows.left == 0 || rows.from >= count {
            return Ok(true);
        }
        status.batch(rt, rows.from, rows.since_ms, &mut rows.batch)?;
        rows.from = rows.from.saturating_add(BATCH);
        rows.batch
            .truncate(usize::try_from(rows.left).unwrap_or(usize::MAX));
        rows.left = rows.left.saturating_sub(rows.batch.len() as u64);
        if !rows.batch.is_empty() {
            put_devices(alloc, text, *is_first, rows.batch.as_slice())?;
            *is_first = false;
            return Ok(false);
        }
    }
    Ok(false)
}

// Puts the next rows of gateways. Whether there are no more.
fn put_next_gateways(
    alloc: Global,
    text: &mut String,
    is_first: &mut bool,
    rows: &mut GatewayRows,
) -> Result<bool, AllocError> {
    let end = rows.from.saturating_add(BATCH).min(rows.all.len());
    let Some(part) = rows.all.as_slice().get(rows.from..end) else {
        return Ok(true);
    };
    if part.is_empty() {
        return Ok(true);
    }
    put_gateways(alloc, text, *is_first, part, rows.now_ms)?;
    *is_first = false;
    rows.from = end;
    Ok(false)
}
