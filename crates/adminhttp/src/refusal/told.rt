//! The responses to refusals.

ghost use Rattle.std.specs.Prelude.{◌≡◌};
ghost use Rattle.adminhttp.specs.Responses.{refusal_response};

use super::Refusal;
use crate::route::Route;

impl Refusal {
    /// The octets of the response, the head and the body. They take no memory.
    pub fn bytes(&self) -> &'static [u8]
        ensures { result.now ≡ refusal_response self.now }
    {
        self.text().as_bytes()
    }

    /// The text of the response.
    fn text(&self) -> &'static str
        ensures { result.now ≡ refusal_response self.now }
    {
        match self {
            Refusal::BadRequest =>
                "HTTP/1.1 400 Bad Request\r\nContent-Type: text/plain\r\nContent-Length: 12\r\n\
             Connection: close\r\n\r\nbad request\n",
            Refusal::ForeignSite =>
                "HTTP/1.1 403 Forbidden\r\nContent-Type: text/plain\r\nContent-Length: 23\r\n\
             Connection: close\r\n\r\nanother site's request\n",
            Refusal::NotFound =>
                "HTTP/1.1 404 Not Found\r\nContent-Type: text/plain\r\nContent-Length: 10\r\n\
             Connection: close\r\n\r\nnot found\n",
            Refusal::NotAllowed(route) => not_allowed(*route),
            Refusal::LengthRequired =>
                "HTTP/1.1 411 Length Required\r\nContent-Type: text/plain\r\nContent-Length: 16\r\n\
             Connection: close\r\n\r\nlength required\n",
            Refusal::TooLarge =>
                "HTTP/1.1 413 Content Too Large\r\nContent-Type: text/plain\r\nContent-Length: 10\r\n\
             Connection: close\r\n\r\ntoo large\n",
            Refusal::StoreFailed =>
                "HTTP/1.1 503 Service Unavailable\r\nContent-Type: text/plain\r\nContent-Length: 13\r\n\
             Connection: close\r\n\r\nstore failed\n",
            Refusal::OutOfMemory =>
                "HTTP/1.1 503 Service Unavailable\r\nContent-Type: text/plain\r\nContent-Length: 14\r\n\
             Connection: close\r\n\r\nout of memory\n",
        }
    }
}

/// The response that lists the methods of a route.
fn not_allowed(route: Route) -> &'static str
    ensures { result.now ≡ refusal_response (Refusal.NotAllowed route) }
{
    match route {
        Route::Maildrops =>
            "HTTP/1.1 405 Method Not Allowed\r\nContent-Type: text/plain\r\nAllow: GET\r\nContent-Length: 19\r\n\
         Connection: close\r\n\r\nmethod not allowed\n",
        Route::Maildrop =>
            "HTTP/1.1 405 Method Not Allowed\r\nContent-Type: text/plain\r\nAllow: GET, PUT, DELETE\r\nContent-Length: 19\r\n\
         Connection: close\r\n\r\nmethod not allowed\n",
        Route::Clerks =>
            "HTTP/1.1 405 Method Not Allowed\r\nContent-Type: text/plain\r\nAllow: GET\r\n\
         Content-Length: 19\r\nConnection: close\r\n\r\nmethod not allowed\n",
        Route::Clerk =>
            "HTTP/1.1 405 Method Not Allowed\r\nContent-Type: text/plain\r\nAllow: GET, PUT, DELETE\r\nContent-Length: 19\r\n\
         Connection: close\r\n\r\nmethod not allowed\n",
        Route::Policy =>
            "HTTP/1.1 405 Method Not Allowed\r\nContent-Type: text/plain\r\nAllow: GET, PUT\r\nContent-Length: 19\r\n\
         Connection: close\r\n\r\nmethod not allowed\n",
        Route::Groups =>
            "HTTP/1.1 405 Method Not Allowed\r\nContent-Type: text/plain\r\nAllow: GET\r\nContent-Length: 19\r\n\
         Connection: close\r\n\r\nmethod not allowed\n",
        Route::Sessions =>
            "HTTP/1.1 405 Method Not Allowed\r\nContent-Type: text/plain\r\nAllow: GET\r\nContent-Length: 19\r\n\
         Connection: close\r\n\r\nmethod not allowed\n",
        Route::Session =>
            "HTTP/1.1 405 Method Not Allowed\r\nContent-Type: text/plain\r\nAllow: DELETE\r\nContent-Length: 19\r\n\
         Connection: close\r\n\r\nmethod not allowed\n",
        Route::Explain =>
            "HTTP/1.1 405 Method Not Allowed\r\nContent-Type: text/plain\r\nAllow: GET\r\nContent-Length: 19\r\n\
         Connection: close\r\n\r\nmethod not allowed\n",
    }
}
