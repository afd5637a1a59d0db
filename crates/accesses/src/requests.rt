// What may be asked for, by its code, and the private work before a request's first access.

ghost use Rattle.std.specs.Prelude.{◌≡◌};
ghost use Rattle.model.specs.Step.{first_line};
ghost use Rattle.accesses.specs.Requests.{Asks};

use crate::effects::call_search_from;
use crate::order::HEAD;
use model::{Line, Refusal, SearchCaller, SearchFrame};

#[derive(Clone, Copy, Debug, PartialEq, Eq)]
pub enum Request {
    Search = 1,
    Insert = 2,
    Delete = 3,
}

impl TryFrom<u32> for Request {
    type Error = Refusal;

    ghost try_from_gives = { Asks };

    fn try_from(code: u32) -> Result<Request, Refusal> {
        match code {
            1 => Ok(Request::Search),
            2 => Ok(Request::Insert),
            3 => Ok(Request::Delete),
            _ => Err(Refusal::NoSuchRequest),
        }
    }
}

// The private work before the first access. The element of another request than an insert is stored as 0. A code that is no request's stands
// for a delete here, as in the definition: a submit has refused it.
#[tactic(auto, unfolding(model::specs::Step::first_line))]
pub fn first_line(code: u32, key: u32, element: u32) -> Line
    ensures { result ≡ first_line code key element }
{
    let request = Request::try_from(code).unwrap_or(Request::Delete);
    let (element, caller) = match request {
        Request::Search => (0, SearchCaller::Search1),
        Request::Insert => (element, SearchCaller::Insert1),
        Request::Delete => (0, SearchCaller::Delete1),
    };
    call_search_from(SearchFrame {
        key,
        element,
        curr: HEAD,
        caller,
    })
}
