//! Messages to the client (JSON-RPC 2.0).
ghost use Rattle.std.specs.Prelude.{◌≡◌, IfOk};
ghost use Rattle.serde_json.specs.View.{view};
ghost use Rattle.hm_lsp_session.specs.Replies.{IsReplyTo, notice_data, refusal_data, reply_data};
ghost use Rattle.hm_lsp_session.specs.Stages.{code_of};

use crate::stages::Refusal;
use serde_json::{Value, json};
use std::alloc::{AllocError, Global};

/// Returns the reply with this result to a request.
pub fn reply(alloc: Global, id: &Value, answer: Value) -> Result<Value, AllocError>
    ensures value { IfOk result (λ made. view made ≡ reply_data (view id.now) (view answer)) }
    ensures id { IfOk result (λ made. IsReplyTo (view id.now) (view made)) }
{
    json!(in alloc; {"id": id, "jsonrpc": "2.0", "result": answer})
}

/// Returns the reply to a request that is refused.
pub fn refusal(alloc: Global, id: &Value, refusal: Refusal, text: &str) -> Result<Value, AllocError>
    ensures value { IfOk result (λ made. view made ≡ refusal_data (view id.now) (code_of refusal) text.now) }
    ensures id { IfOk result (λ made. IsReplyTo (view id.now) (view made)) }
{
    let code = refusal.code();
    json!(in alloc; {"error": {"code": code, "message": text}, "id": id, "jsonrpc": "2.0"})
}

/// Returns a notification of the server.
pub fn notice(alloc: Global, method: &str, params: Value) -> Result<Value, AllocError>
    ensures { IfOk result (λ made. view made ≡ notice_data method.now (view params)) }
{
    json!(in alloc; {"jsonrpc": "2.0", "method": method, "params": params})
}
