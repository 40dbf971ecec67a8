//! What stands between the parts of a page.

/// What stands before the style. Its policy names the digests of the script, the style and the picture's style, so a
/// browser runs no other script and applies no other style.
pub const HEAD: &str = r#"<!doctype html>
<html lang="en">
<meta charset="utf-8">
<meta http-equiv="Content-Security-Policy" content="default-src 'none'; script-src 'sha256-kvPsOGd3B3r+rak/UMN91ANMZGjFX05jUTq1iD6svCI='; style-src 'sha256-f+eXaAytge8XmyVWlhZ9rcXKyZ1noLmXSfayaIXKTFY=' 'sha256-q4MnRjbjrnzgSyy6+iBKwnSXtEkaPMSShdTCfpUVpwk='; base-uri 'none'; form-action 'none'">
<meta name="viewport" content="width=device-width,initial-scale=1">
<title>presence_bench</title>
<style>"#;

/// What stands between the style and the body.
pub const BODY_BEGINS: &str = "</style>\n";

/// What stands between the body and the still picture.
pub const STILL_BEGINS: &str = "<noscript>";

/// What stands between the still picture and the report.
pub const REPORT_BEGINS: &str = "<pre>";

/// What stands between the report and the data.
pub const RUN_BEGINS: &str = "</pre></noscript>\n<script type=\"application/json\" id=\"run\">";

/// What stands between the data and the script.
pub const SCRIPT_BEGINS: &str = "</script>\n<script>";

/// What stands after the script.
pub const TAIL: &str = "</script>\n</html>\n";
