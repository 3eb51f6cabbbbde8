//! The page of what was counted, and a word that the program serves.

ghost use Rattle.std.specs.Prelude.{◌≡◌, ◌↔◌, ◌∷◌, [], IsTrue, OnOk, codes};
ghost use Rattle.http_header.specs.FieldValue.{is_visible_text};
ghost use Rattle.http_server.specs.Response.{IsResponse};
ghost use Rattle.node_telling.specs.Page.{page};
ghost use Rattle.node_telling.specs.Answering.{Answers, Reads, closing, typed};

use crate::texts::page::push_page;
use crate::texts::status::Status;
use bytes::{BufMut, Bytes};
use http::{HeaderName, HeaderValue, Request, StatusCode};
use http_server::{Response, Service};
use std::alloc::{AllocError, Global};

const PAGE_TYPE: &str = "text/plain; version=0.0.4; charset=utf-8";

const TEXT_TYPE: &str = "text/plain; charset=utf-8";

/// Answers by what was counted when the connection came: `/metrics` is the page for Prometheus, and
/// `/healthz` says `ok`. Each answer ends its connection, so that the next one has counts of its own.
#[derive(Drop)]
pub struct Pages<'a> {
    alloc: Global,
    version: &'a str,
    status: Status,
}

// Whether the request asks to read.
fn reads(request: &Request<Bytes>) -> bool
    ensures { IsTrue result ↔ Reads request.now }
{
    match request.method().as_str() {
        "GET" | "HEAD" => true,
        _ => false,
    }
}

// The head of an answer that has a body of this type.
fn put_type(response: &mut Response, kind: &'static str) -> Result<(), AllocError>
    requires text { IsTrue (is_visible_text kind.now) }
    requires closes { IsResponse 200 (closing ∷ []) [] response.old }
    ensures { OnOk result (IsResponse 200 (typed kind.now) [] response.new) }
{
    response.add_header(
        HeaderName::from_static("content-type"),
        HeaderValue::from_static(kind),
    )
}

impl<'a> Pages<'a> {
    pub fn new(alloc: Global, version: &'a str, status: Status) -> Pages<'a>
        ensures version { result.version.now ≡ version.now }
        ensures status { result.status ≡ status }
    {
        Pages {
            alloc,
            version,
            status,
        }
    }

    fn put_metrics(&self, response: &mut Response) -> Result<(), AllocError>
        requires closes { IsResponse 200 (closing ∷ []) [] response.old }
        ensures { OnOk result (IsResponse 200
            (typed (codes "text/plain; version=0.0.4; charset=utf-8"))
            (page self.now.version.now self.now.status) response.new) }
    {
        let mut text = String::new(self.alloc);
        push_page(self.alloc, &mut text, self.version, &self.status)?;
        put_type(response, PAGE_TYPE)?;
        response.body.put_slice(text.as_str().as_bytes())
    }

    fn put_health(&self, response: &mut Response) -> Result<(), AllocError>
        requires closes { IsResponse 200 (closing ∷ []) [] response.old }
        ensures { OnOk result (IsResponse 200 (typed (codes "text/plain; charset=utf-8"))
            (codes "ok\n") response.new) }
    {
        put_type(response, TEXT_TYPE)?;
        response.body.put_slice(b"ok\n")
    }
}

impl<'a> Service for Pages<'a> {
    ghost answers = { λ old request response new.
        Answers old.version.now old.status request response × (new ≡ old) };

    fn call(
        &mut self,
        request: &Request<Bytes>,
        response: &mut Response,
    ) -> Result<(), AllocError> {
        response.add_header(
            HeaderName::from_static("connection"),
            HeaderValue::from_static("close"),
        )?;
        if !reads(request) {
            response.status = StatusCode::METHOD_NOT_ALLOWED;
            return Ok(());
        }
        match request.uri().path() {
            "/metrics" => self.put_metrics(response),
            "/healthz" => self.put_health(response),
            _ => {
                response.status = StatusCode::NOT_FOUND;
                Ok(())
            }
        }
    }
}
