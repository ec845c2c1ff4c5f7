//! The frame of a page: its head, its header and its end.
use crate::labels::{
    ALL_LOGS, AS_ONE_TEXT, BUILD_TOOK, MADE_BY, NEW_SINCE, OF, PROGRAM, SUMMARY, TIMELINE,
    WHAT_FAILED,
};
use crate::scope::Count::Targets;
use crate::scope::Measure::Took;
use crate::scope::Phrase::{Command, Directory, Heading, LogsIn, Title, VerdictSign};
use crate::scope::Test::{HasBaseline, HasFailed, HasTitle, HasWindow, IsRequested, IsTimed};
use crate::template::Around::{EachTarget, If};
use crate::template::Item::{
    Badge, Body, Date, In, Measure, Name, Number, Phrase, StyleSheet, TabTitle, Tag, Text,
};
use crate::template::Template;
use redo_html::Markup::{
    Charset, Code, ColorScheme, Doctype, EndBody, EndCode, EndFooter, EndHead, EndHeader, EndHtml,
    EndItem, EndLink, EndMain, EndNav, EndParagraph, EndSign, EndTitle1, EndUnordered, FailedLink,
    Footer, Head, Header, Html, Item, Main, MetaParagraph, Nav, NewLink, Paragraph, Policy,
    Referrer, Sign, SummaryLink, TimelineLink, Title1, TreeLink, Unordered, Viewport,
};

/// The head, up to the start of the body.
pub const HEAD: Template = &[
    Tag(Doctype),
    Tag(Html),
    Tag(Head),
    Tag(Charset),
    Tag(Viewport),
    Tag(ColorScheme),
    Tag(Referrer),
    Tag(Policy),
    TabTitle,
    StyleSheet,
    Tag(EndHead),
    Body,
];

/// The header, with links to the sections, up to the start of the main part.
pub const HEADER: Template = &[
    Tag(Header),
    Tag(Title1),
    Tag(Sign),
    Phrase(VerdictSign),
    Tag(EndSign),
    Text(b" "),
    Phrase(Heading),
    Tag(EndTitle1),
    In(
        If(HasTitle),
        &[Tag(Paragraph), Phrase(Title), Tag(EndParagraph)],
    ),
    In(
        EachTarget,
        &[In(
            If(IsRequested),
            &[Tag(Paragraph), Name, Badge, Tag(EndParagraph)],
        )],
    ),
    In(
        If(HasWindow),
        &[
            Tag(MetaParagraph),
            Date,
            Text(BUILD_TOOK),
            Measure(Took),
            Tag(EndParagraph),
        ],
    ),
    Tag(EndHeader),
    Tag(Nav),
    Tag(Unordered),
    In(
        If(HasFailed),
        &[
            Tag(Item),
            Tag(FailedLink),
            Text(WHAT_FAILED),
            Tag(EndLink),
            Tag(EndItem),
        ],
    ),
    In(
        If(HasBaseline),
        &[
            Tag(Item),
            Tag(NewLink),
            Text(NEW_SINCE),
            Tag(EndLink),
            Tag(EndItem),
        ],
    ),
    Tag(Item),
    Tag(SummaryLink),
    Text(SUMMARY),
    Tag(EndLink),
    Tag(EndItem),
    In(
        If(HasWindow),
        &[In(
            If(IsTimed),
            &[
                Tag(Item),
                Tag(TimelineLink),
                Text(TIMELINE),
                Tag(EndLink),
                Tag(EndItem),
            ],
        )],
    ),
    Tag(Item),
    Tag(TreeLink),
    Text(ALL_LOGS),
    Tag(EndLink),
    Tag(EndItem),
    Tag(EndUnordered),
    Tag(EndNav),
    Tag(Main),
];

/// The end of a page.
pub const FOOTER: Template = &[
    Tag(EndMain),
    Tag(Footer),
    Tag(Paragraph),
    Text(MADE_BY),
    Tag(Code),
    Text(PROGRAM),
    Tag(EndCode),
    Text(OF),
    Number(Targets),
    Phrase(LogsIn),
    Tag(Code),
    Phrase(Directory),
    Tag(EndCode),
    Text(AS_ONE_TEXT),
    Tag(Code),
    Phrase(Command),
    Tag(EndCode),
    Tag(EndParagraph),
    Tag(EndFooter),
    Tag(EndBody),
    Tag(EndHtml),
    Text(b"\n"),
];
