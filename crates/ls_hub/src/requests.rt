//! Requests on a connection, by their names and parameters (TLCP 2.1, requests). After `NoMemory` the hub is as before.
ghost use Rattle.std.specs.Prelude.{◌≡◌, ◌++◌, length, IfOk, OnOk, OnErr, codes};
ghost use Rattle.ls_form.specs.Forms.{form_of};
ghost use Rattle.ls_line.specs.Lines.{text_of_line};
ghost use Rattle.ls_request.specs.Ranges.{RequestFits};
ghost use Rattle.ls_request.specs.declared.request.LinkKind.TheVariants as link;
ghost use Rattle.ls_step.specs.Adding.{add_pairs};
ghost use Rattle.ls_step.specs.Notes.{text_of_out};
ghost use Rattle.ls_step.specs.declared.out.Out.TheVariants as out;
ghost use Rattle.ls_world.specs.World.{World};
ghost use Rattle.ls_world.specs.Steps.{requests, link_of, malformed, acts, creates, connects, plain_create};
ghost use Rattle.ls_hub.specs.Hub.{StandsHub, StandsAsBefore, Prints, name_at};

use crate::hub::Hub;
use ls_acts::malformed;
use ls_form::{FormRefused, Params, pairs};
use ls_line::{Line, append};
use ls_request::{Create, DEFAULT_KEEPALIVE, LinkKind, Request, RequestRefused, read_pairs};
use ls_script::add_params;
use ls_step::AddWords;
use ls_value::{Bytes, NoMemory, Text};
use std::alloc::Global;

impl Hub {
    /// The request that an `add` line stands for, which is read as over a WebSocket.
    pub(crate) fn add(
        &mut self,
        line: u64,
        connection: u32,
        words: AddWords,
        text: &mut Vec<u8>,
    ) -> Result<(), NoMemory>
        ensures ok { OnOk result ((w : World) → StandsHub self.old w → line ≡ w.line
            → Prints (requests w connection link.Ws (codes "control") (add_pairs w.line words)) text.old.items
            text.new.items self.new) }
        ensures err { OnErr result (StandsAsBefore self.old self.new) }
    {
        let params = params_of(self.alloc, line, words)?;
        self.request(connection, LinkKind::Ws, b"control", params, text)
    }

    /// A request by its name and its form text, which is read as over its connection's link.
    pub(crate) fn request_form(
        &mut self,
        connection: u32,
        name: &Text,
        parameters: Bytes,
        text: &mut Vec<u8>,
    ) -> Result<(), NoMemory>
        ensures ok { OnOk result ((w : World) → StandsHub self.old w
            → Prints (requests w connection (link_of w connection) name.now (form_of parameters)) text.old.items
            text.new.items self.new) }
        ensures err { OnErr result (StandsAsBefore self.old self.new) }
    {
        let params = form(self.alloc, parameters)?;
        let link = self.link_of(connection as usize);
        self.request(connection, link, name.as_bytes(), params, text)
    }

    /// A new connection over WebSocket, and a create_session on it without parameters.
    pub(crate) fn connect_and_open(
        &mut self,
        name: Text,
        text: &mut Vec<u8>,
    ) -> Result<(), NoMemory>
        ensures ok { OnOk result ((w : World) → StandsHub self.old w
            → Prints (creates (connects w name LinkKind.Ws) (length w.connections) plain_create) text.old.items
            text.new.items self.new) }
        ensures err { OnErr result (StandsAsBefore self.old self.new) }
    {
        let connection = self.connections.len();
        self.connect(name, LinkKind::Ws)?;
        let create = Create {
            set: None,
            keepalive: DEFAULT_KEEPALIVE,
            bandwidth: None,
            length: None,
        };
        match self.open(connection, &create, text) {
            Ok(()) => Ok(()),
            Err(cause) => {
                self.connections.truncate(connection);
                Err(cause)
            }
        }
    }

    /// A request by its name and its parameters, which are none where they are no form, as it is read over a link: it
    /// is done, or refused in reading.
    fn request(
        &mut self,
        connection: u32,
        link: LinkKind,
        name: &[u8],
        params: Option<Params>,
        text: &mut Vec<u8>,
    ) -> Result<(), NoMemory>
        ensures ok { OnOk result ((w : World) → StandsHub self.old w
            → Prints (requests w connection link name.now params) text.old.items text.new.items self.new) }
        ensures err { OnErr result (StandsAsBefore self.old self.new) }
    {
        let Some(params) = params else {
            return self.refuse(connection, name, None, text);
        };
        match read_pairs(self.alloc, link, name, &params) {
            Ok(request) => self.act(connection as usize, request, text),
            Err(RequestRefused::Malformed { req }) => self.refuse(connection, name, req, text),
            Err(RequestRefused::NoMemory) => Err(NoMemory),
        }
    }

    /// A request that was read.
    fn act(
        &mut self,
        connection: usize,
        request: Request,
        text: &mut Vec<u8>,
    ) -> Result<(), NoMemory>
        requires { RequestFits request }
        ensures ok { OnOk result ((w : World) → StandsHub self.old w
            → Prints (acts w connection request) text.old.items text.new.items self.new) }
        ensures err { OnErr result (StandsAsBefore self.old self.new) }
    {
        match request {
            Request::Create(create) => self.open(connection, &create, text),
            Request::Bind(bind) => self.bind(connection, &bind, text),
            Request::Control(control) => self.control(connection, &control, text),
            Request::Wsok => self.line(connection, Line::WsOk, text),
        }
    }

    /// The answer to a malformed request, by its name, and by its own name where that was read.
    fn refuse(
        &self,
        connection: u32,
        name: &[u8],
        req: Option<Text>,
        text: &mut Vec<u8>,
    ) -> Result<(), NoMemory>
        ensures { OnOk result ((w : World) → StandsHub self.now w
            → Prints (malformed w connection name.now req) text.old.items text.new.items self.now) }
    {
        let line = malformed(self.alloc, name, req)?;
        self.line(connection as usize, line, text)
    }

    /// Appends a line on a connection, ended by LF (this project's profile). Its drop is proved here, once for all
    /// callers.
    pub(crate) fn line(
        &self,
        connection: usize,
        line: Line,
        text: &mut Vec<u8>,
    ) -> Result<(), NoMemory>
        ensures { OnOk result (text.new.items ≡ text.old.items
            ++ text_of_out (out.Line (name_at self.now.connections.items connection) (text_of_line line))) }
    {
        self.lent_line(connection, &line, text)
    }

    /// Appends it.
    fn lent_line(&self, connection: usize, line: &Line, text: &mut Vec<u8>) -> Result<(), NoMemory>
        ensures { OnOk result (text.new.items ≡ text.old.items
            ++ text_of_out (out.Line (name_at self.now.connections.items connection) (text_of_line line.now))) }
    {
        text.extend_from_slice(self.name_of(connection))?;
        text.push(b':')?;
        append(text, line)?;
        text.push(b'\n')?;
        Ok(())
    }
}

/// The parameters that the words of an `add` line stand for: `None` where one is no UTF-8. Their drop is proved here.
fn params_of(alloc: Global, line: u64, words: AddWords) -> Result<Option<Params>, NoMemory>
    ensures { IfOk result (λ params. params ≡ add_pairs line words) }
{
    add_params(alloc, line, &words)
}

/// The parameters of a form text: `None` exactly where it is no form.
fn form(alloc: Global, text: Bytes) -> Result<Option<Params>, NoMemory>
    ensures { IfOk result (λ params. params ≡ form_of text) }
{
    match pairs(alloc, text.as_slice()) {
        Ok(params) => Ok(Some(params)),
        Err(FormRefused::NoMemory) => Err(NoMemory),
        Err(_) => Ok(None),
    }
}
